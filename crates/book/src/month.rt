// A contract month: its book, as its opening and its calls have made it.
ghost use Rattle.std.specs.Prelude.{◌≡◌};

use crate::tables::Book;
use std::marker::Model;

// The book of one contract month, reached from an accepted opening by calls: a clause sees the book, and each month's is so.
#[derive(Clone, Drop)]
pub struct Month<'t> {
    pub book: Book<'t>,
}

impl<'t> Model for Month<'t> {
    ghost use Rattle.book.specs.declared.tables.Book.{Book};
    ghost use Rattle.book.specs.Lists.{Reached};

    ghost Value = { Book };

    ghost view = { λ month. month.book };

    ghost invariant = { λ month. Reached month.book };
}

impl<'t> Month<'t> {
    // The same month, on which a call can be tried.
    pub fn copied(&self) -> Month<'t>
        ensures { result ≡ self.now }
    {
        Month {
            book: self.book.copied(),
        }
    }
}
