// A printer writes bytes, numbers and answers into a lent buffer. No `write!`: std's formatting promises its bytes only on `Ok`, and never that it ends in `Ok`; these are written wherever there is room.
ghost use Rattle.std.specs.Prelude.{◌≡◌, ◌∷◌, [], ◌++◌, ◌+◌, ◌*◌, ◌≤◌, ◌%◌, length};
ghost use Rattle.book.specs.Outcomes.{Answer};
ghost use Rattle.book.specs.Answers.{carried_answer};
ghost use Rattle.text.specs.Print.{digits, signed, rest_of_line, answer_line};
ghost use Rattle.text.specs.Ledger.{heading};

use book::{Carried, Refusal};

// A lent buffer, and the place up to which it is written.
#[derive(Drop)]
pub struct Printer<'a> {
    pub out: &'a mut [u8],
    pub at: usize,
}

// A number's digits, in a lent buffer.
#[tactic(auto, using(crate::proofs::Printing::digits_decimal))]
pub fn decimal(buffer: &mut itoa::Buffer, n: u64) -> &[u8]
    ensures text { result.now ≡ digits n }
    ensures few { length result.now ≤ 20 }
{
    buffer.format(n).as_bytes()
}

// The last digit of a number.
pub fn last_digit(n: u64) -> u8
    ensures { result ≡ 48 + n % 10 }
{
    b'0' + (n % 10) as u8
}

impl<'a> Printer<'a> {
    ghost use Rattle.text.specs.Printer.{HasRoom, Prints};

    // At the start of a buffer.
    pub fn new(out: &'a mut [u8]) -> Printer<'a>
        ensures buffer { result.out ≡ out.entry }
        ensures start { result.at ≡ 0 }
    {
        Printer { out, at: 0 }
    }

    pub fn byte(&mut self, b: u8)
        requires { HasRoom self.old 1 }
        ensures { Prints self.old self.new (b ∷ []) }
    {
        self.out[self.at] = b;
        self.at += 1;
    }

    // A loop: `copy_from_slice` would want `memmove` of C.
    pub fn bytes(&mut self, src: &[u8])
        requires { HasRoom self.old (length src.now) }
        ensures { Prints self.old self.new src.now }
    {
        let end = self.at + src.len();
        let part = &mut self.out[self.at..end];
        for (i, b) in src.iter().enumerate() {
            part[i] = *b;
        }
        self.at = end;
    }

    pub fn last_digit(&mut self, n: u64)
        requires { HasRoom self.old 1 }
        ensures { Prints self.old self.new ((48 + n % 10) ∷ []) }
    {
        self.byte(last_digit(n));
    }

    // A number's digits, with room for just these. One or two need no buffer of their own.
    #[tactic(auto, using(crate::proofs::Printing::digits_small, crate::proofs::Printing::digits_two))]
    pub fn digits(&mut self, n: u64)
        requires { HasRoom self.old (length (digits n)) }
        ensures { Prints self.old self.new (digits n) }
    {
        if n < 10 {
            self.last_digit(n);
            return;
        }
        if n < 100 {
            self.bytes(&[last_digit(n / 10), last_digit(n)]);
            return;
        }
        let mut buffer = itoa::Buffer::new();
        self.bytes(decimal(&mut buffer, n));
    }

    // The same with room for any number: what is left to show at a call is arithmetic.
    #[tactic(auto, using(crate::proofs::Printing::digits_64))]
    pub fn number(&mut self, n: u64)
        requires { HasRoom self.old 20 }
        ensures printed { Prints self.old self.new (digits n) }
        ensures few { self.new.at ≤ self.old.at + 20 }
    {
        self.digits(n);
    }

    pub fn signed(&mut self, z: i64)
        requires { HasRoom self.old 21 }
        ensures printed { Prints self.old self.new (signed z) }
        ensures few { self.new.at ≤ self.old.at + 21 }
    {
        if z < 0 {
            self.byte(b'-');
            self.number(z.unsigned_abs());
            return;
        }
        self.number(z as u64);
    }

    // A space and a number.
    pub fn next(&mut self, n: u64)
        requires { HasRoom self.old 21 }
        ensures printed { Prints self.old self.new ((32 ∷ []) ++ digits n) }
        ensures few { self.new.at ≤ self.old.at + 21 }
    {
        self.byte(b' ');
        self.number(n);
    }

    // The rest of a line: numbers, a space before each, and the newline.
    #[tactic(auto, using(crate::proofs::Printing::prints_none, crate::proofs::Printing::prints_then), unfolding(crate::specs::Print::spaced))]
    pub fn rest(&mut self, ns: &[u64])
        requires { HasRoom self.old (21 * length ns.now + 1) }
        ensures printed { Prints self.old self.new (rest_of_line ns.now) }
        ensures few { self.new.at ≤ self.old.at + 21 * length ns.now + 1 }
    {
        for n in ns {
            self.next(*n);
        }
        self.byte(b'\n');
    }

    // A word and a number on a line.
    pub fn heading(&mut self, word: &[u8], n: u64)
        requires { HasRoom self.old (length word.now + 22) }
        ensures printed { Prints self.old self.new (heading word.now n) }
        ensures few { self.new.at ≤ self.old.at + length word.now + 22 }
    {
        self.bytes(word);
        self.rest(&[n]);
    }

    // A space and a number of at most five digits.
    #[tactic(auto, using(crate::proofs::Printing::digits_16))]
    fn next_small(&mut self, n: u16)
        requires { HasRoom self.old 6 }
        ensures printed { Prints self.old self.new ((32 ∷ []) ++ digits n) }
        ensures few { self.new.at ≤ self.old.at + 6 }
    {
        self.byte(b' ');
        self.digits(n as u64);
    }

    // `ok`, pairs, tests and gap, "printed in that order".
    fn closed(&mut self, pairs: u16, tests: u16, gap: u16)
        requires { HasRoom self.old 21 }
        ensures printed { Prints self.old self.new (answer_line (Answer.Closed pairs tests gap)) }
        ensures few { self.new.at ≤ self.old.at + 21 }
    {
        self.bytes(b"ok");
        self.next_small(pairs);
        self.next_small(tests);
        self.next_small(gap);
        self.byte(b'\n');
    }

    // `no n`; with a number of two digits, as most refusals have, in one writing.
    #[tactic(auto, using(crate::proofs::Printing::digits_two), unfolding(crate::specs::Print::spaced))]
    pub fn refused(&mut self, n: u64)
        requires { HasRoom self.old 24 }
        ensures printed { Prints self.old self.new (answer_line (Answer.Refused n)) }
        ensures few { self.new.at ≤ self.old.at + 24 }
    {
        if 10 <= n && n < 100 {
            self.bytes(&[b'n', b'o', b' ', last_digit(n / 10), last_digit(n), b'\n']);
            return;
        }
        self.heading(b"no", n);
    }

    // `ok n` or `no n`; after Close `ok` and three numbers. Inlined, as each line of a session has one.
    #[inline(always)]
    pub fn answer(&mut self, answer: Result<Carried, Refusal>)
        requires { HasRoom self.old 24 }
        ensures printed { Prints self.old self.new (answer_line (carried_answer answer)) }
        ensures few { self.new.at ≤ self.old.at + 24 }
    {
        match answer {
            Ok(Carried::Number(n)) => self.heading(b"ok", n),
            Ok(Carried::Closed { pairs, tests, gap }) => self.closed(pairs, tests, gap),
            Err(refusal) => self.refused(refusal.number()),
        }
    }
}
