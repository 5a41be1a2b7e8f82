//! Rows and lines that were typed out by hand.
use crate::{
    ClockRow, CycleRow, clock_heading, clock_row, cycle_heading, cycle_row, escaped, hidden_lines,
    visible_lines, word_row,
};
use machine::{Port, Registers, Visible};
use std::test::Fail;

fn port() -> Port {
    Port {
        inpr: 0x0A,
        outr: 0x41,
        fgi: false,
        fgo: true,
    }
}

fn visible() -> Visible {
    Visible {
        ac: 0x0012,
        e: true,
        pc: 0x105,
        ien: false,
        r: false,
        s: true,
        port: port(),
    }
}

fn registers() -> Registers {
    Registers {
        ar: 0x107,
        pc: 0x105,
        dr: 0xBEEF,
        ac: 0x0012,
        ir: 0x1107,
        tr: 0,
        sc: 5,
        e: true,
        i: false,
        r: false,
        s: true,
        ien: false,
        port: port(),
    }
}

#[test]
fn cycle_under_its_heading(rt: HostRuntime) -> Result<(), Fail> {
    let row = CycleRow {
        at: 0x104,
        word: 0x1107,
        instruction: *b"ADD 107   ",
        after: visible(),
    };
    let heading = b"AT  WORD INSTRUCTION PC  AC   E IEN R S FGI FGO INPR OUTR";
    let expected = b"104 1107 ADD 107     105 0012 1 0   0 1 0   1   0A   41";
    assert!(rt; cycle_heading().as_bytes() == heading.as_slice());
    assert!(rt; cycle_row(rt.alloc(), row)?.as_slice() == expected.as_slice());
    Ok(())
}

#[test]
fn clock_under_its_heading(rt: HostRuntime) -> Result<(), Fail> {
    let row = ClockRow {
        time: 4,
        instruction: *b"ADD 107   ",
        after: registers(),
    };
    let heading = b"T INSTRUCTION SC AR  PC  DR   AC   IR   TR   I E IEN R S FGI FGO INPR OUTR";
    let expected = b"4 ADD 107     5  107 105 BEEF 0012 1107 0000 0 1 0   0 1 0   1   0A   41";
    assert!(rt; clock_heading().as_bytes() == heading.as_slice());
    assert!(rt; clock_row(rt.alloc(), row)?.as_slice() == expected.as_slice());
    Ok(())
}

#[test]
fn registers_by_name(rt: HostRuntime) -> Result<(), Fail> {
    let seen = b"PC 105\nAC 0012\nE 1\nIEN 0\nR 0\nS 1\nFGI 0\nFGO 1\nINPR 0A\nOUTR 41\n";
    assert!(rt; visible_lines(rt.alloc(), visible())?.as_slice() == seen.as_slice());
    let hidden = b"AR 107\nDR BEEF\nIR 1107\nTR 0000\nI 0\nSC 5\n";
    assert!(rt; hidden_lines(rt.alloc(), registers())?.as_slice() == hidden.as_slice());
    Ok(())
}

#[test]
fn word_of_memory(rt: HostRuntime) -> Result<(), Fail> {
    assert!(rt; word_row(rt.alloc(), 0x100, 0x2107)?.as_slice() == b"100 2107".as_slice());
    Ok(())
}

#[test]
fn bytes_that_do_not_print(rt: HostRuntime) -> Result<(), Fail> {
    let text = escaped(rt.alloc(), b"A ~\\\n\r\0\x7F\xFF")?;
    assert!(rt; text.as_slice() == b"A ~\\\\\\n\\x0D\\x00\\x7F\\xFF".as_slice());
    Ok(())
}

#[test]
fn low_bits_only(rt: HostRuntime) {
    assert_eq!(rt; digits::address_digits(0xF00A), *b"00A");
    assert_eq!(rt; digits::count_digit(0xF9), *b"9");
    assert_eq!(rt; digits::word_digits(0xCDEF), *b"CDEF");
}
