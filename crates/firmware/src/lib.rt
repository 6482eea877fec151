// The interface for C: include/delivery.h declares what is exported here.
#![tactic(auto)]

ghost use Rattle.heats.specs.Numerators.{heat_table};
ghost use Rattle.firmware.specs.Served.{Served, PageServed, ByTable, Tabled, DispatchServed};

use heats::HeatTable;
use loading::PortTable;
use text::Printer;

// A session from a buffer to a buffer, with a heat table.
fn serve(heats: &HeatTable, input: &[u8], out: &mut [u8]) -> usize
    ensures { Served heats.now input.now out.old out.new result }
{
    if out.len() < 848_427 {
        return 0;
    }
    session::session(heats, input, out)
}

// The ledger page of the book after a session, with a heat table.
fn serve_page(heats: &HeatTable, input: &[u8], out: &mut [u8]) -> usize
    ensures { PageServed heats.now input.now out.old out.new result }
{
    session::page(heats, input, out).unwrap_or(0)
}

// A session from a buffer to a buffer: how many bytes were written, or 0, with nothing written, where the output has less room than every session needs.
#[unsafe(no_mangle)]
pub extern "C" fn delivery_session(input: &[u8], out: &mut [u8]) -> usize
    ensures { Served heat_table input.now out.old out.new result }
{
    serve(&heats::printed(), input, out)
}

// The same with the heat table that is loaded from these bytes; `no 31` where they are refused.
#[unsafe(no_mangle)]
pub extern "C" fn delivery_session_by_table(table: &[u8], input: &[u8], out: &mut [u8]) -> usize
    ensures { ByTable (λ heats. Served heats input.now out.old out.new result) table.now out.old out.new result }
{
    let mut port = PortTable::printed();
    match port.load(table) {
        Ok(_) => serve(&port.lend(), input, out),
        Err(refusal) => session::lend_refusal(out, refusal).unwrap_or(0),
    }
}

// The ledger page of the book after a session, or `no n` where its line one is refused: how many bytes were written, or 0, with nothing written, where the output is too short.
#[unsafe(no_mangle)]
pub extern "C" fn delivery_page(input: &[u8], out: &mut [u8]) -> usize
    ensures { PageServed heat_table input.now out.old out.new result }
{
    serve_page(&heats::printed(), input, out)
}

// The same with the heat table that is loaded from these bytes; `no 31` where they are refused.
#[unsafe(no_mangle)]
pub extern "C" fn delivery_page_by_table(table: &[u8], input: &[u8], out: &mut [u8]) -> usize
    ensures { ByTable (λ heats. PageServed heats input.now out.old out.new result) table.now out.old out.new result }
{
    let mut port = PortTable::printed();
    match port.load(table) {
        Ok(_) => serve_page(&port.lend(), input, out),
        Err(refusal) => session::lend_refusal(out, refusal).unwrap_or(0),
    }
}

// The heat table of document 02's Job 9, one number to a line: how many bytes were written, or 0, with nothing written, where the output is too short.
#[unsafe(no_mangle)]
pub extern "C" fn delivery_heat_table(out: &mut [u8]) -> usize
    ensures { Tabled out.old out.new result }
{
    if out.len() < 18_711 {
        return 0;
    }
    let mut printer = Printer::new(out);
    heat_text::print_table(&mut printer);
    printer.at
}

// The answers to a list of a factory's calls, from a buffer to a buffer: how many bytes were written, or 0, with nothing written, where the output has less room than every list of as many bytes needs.
#[unsafe(no_mangle)]
pub extern "C" fn delivery_dispatch(input: &[u8], out: &mut [u8]) -> usize
    ensures { DispatchServed input.now out.old out.new result }
{
    // 82 * input.len() + 24 might not fit a number of the machine.
    if out.len() < 24 || (out.len() - 24) / 82 < input.len() {
        return 0;
    }
    factory_text::dispatch(input, out)
}
