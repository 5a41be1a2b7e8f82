//! Rows of some words.
use crate::{disassemble, is_listed};

#[test]
fn an_address_has_four_digits(rt: HostRuntime) {
    assert_eq!(rt; disassemble(0x2107), *b"LDA 0107  ");
    assert_eq!(rt; disassemble(0x6FFF), *b"ISZ 0FFF  ");
}

#[test]
fn bit_15_is_i(rt: HostRuntime) {
    assert_eq!(rt; disassemble(0x901C), *b"ADD 001C I");
}

#[test]
fn an_instruction_without_address_stands_alone(rt: HostRuntime) {
    assert_eq!(rt; disassemble(0x7001), *b"HLT       ");
    assert_eq!(rt; disassemble(0xF400), *b"OUT       ");
}

#[test]
fn any_other_word_is_a_number(rt: HostRuntime) {
    assert_eq!(rt; disassemble(0x70C0), *b"HEX 70C0  ");
    assert_eq!(rt; disassemble(0xFFFF), *b"HEX FFFF  ");
    assert!(rt; !is_listed(0x70C0));
}
