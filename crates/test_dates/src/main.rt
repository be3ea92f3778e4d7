// Runs the functions of `dates` on document 01's figures and on the edges of 64 bits, a line for each.
#![tactic(auto)]

use std::io;

fn number(rt: &HostRuntime, n: u64) -> io::Result<()> {
    print!(rt; " {n}")
}

fn result(rt: &HostRuntime, n: u64) -> io::Result<()> {
    println!(rt; " = {n}")
}

fn after(rt: &HostRuntime, date: u64, span: u64) -> io::Result<()> {
    print!(rt; "after")?;
    number(rt, date)?;
    number(rt, span)?;
    result(rt, dates::after(date, span))
}

fn subcycles(rt: &HostRuntime, cycle: u64) -> io::Result<()> {
    print!(rt; "subcycles")?;
    number(rt, cycle)?;
    result(rt, dates::subcycles(cycle))
}

fn cycles(rt: &HostRuntime, date: u64) -> io::Result<()> {
    print!(rt; "cycles")?;
    number(rt, date)?;
    result(rt, dates::cycles(date))
}

fn both(rt: &HostRuntime, a: u64, b: u64) -> io::Result<()> {
    print!(rt; "later")?;
    number(rt, a)?;
    number(rt, b)?;
    result(rt, dates::later(a, b))?;
    print!(rt; "earlier")?;
    number(rt, a)?;
    number(rt, b)?;
    result(rt, dates::earlier(a, b))
}

// P3, P6: a byte of 13,440 subcycles from cycle 100 ends at 520. P5: 33 bytes end at 13,960.
// P7: ten bits after 520 is 940. P8: a byte handed over for 939 lands at 1,359, and its timeout is 1,779.
fn marked(rt: &HostRuntime) -> io::Result<()> {
    subcycles(rt, 100)?;
    after(rt, 3200, 13440)?;
    cycles(rt, 16640)?;
    after(rt, 3200, 443520)?;
    cycles(rt, 446720)?;
    after(rt, 16640, 13440)?;
    cycles(rt, 30080)?;
    subcycles(rt, 939)?;
    after(rt, 30048, 13440)?;
    cycles(rt, 43488)?;
    after(rt, 43488, 13440)?;
    cycles(rt, 56928)
}

// 0, 1, each limit, one on either side of it, and all ones.
fn edges(rt: &HostRuntime) -> io::Result<()> {
    after(rt, 0, 0)?;
    after(rt, 0, 1)?;
    after(rt, dates::LAST, 0)?;
    after(rt, 0, dates::LAST)?;
    after(rt, 18446744073709551614, 1)?;
    after(rt, 18446744073709551614, 2)?;
    after(rt, dates::LAST, 1)?;
    after(rt, dates::LAST, dates::LAST)?;
    subcycles(rt, 0)?;
    subcycles(rt, 1)?;
    subcycles(rt, 576460752303423487)?;
    subcycles(rt, 576460752303423488)?;
    subcycles(rt, 576460752303423489)?;
    subcycles(rt, dates::LAST)?;
    cycles(rt, 0)?;
    cycles(rt, 1)?;
    cycles(rt, 31)?;
    cycles(rt, 32)?;
    cycles(rt, 33)?;
    cycles(rt, 18446744073709551584)?;
    cycles(rt, 18446744073709551585)?;
    cycles(rt, dates::LAST)?;
    both(rt, 0, 0)?;
    both(rt, 0, 1)?;
    both(rt, 1, 0)?;
    both(rt, 18446744073709551614, dates::LAST)?;
    both(rt, dates::LAST, 18446744073709551614)?;
    both(rt, dates::LAST, dates::LAST)
}

fn main(rt: HostRuntime) -> io::Result<()> {
    marked(&rt)?;
    edges(&rt)
}
