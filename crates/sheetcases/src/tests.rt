//! What a program's standard input cannot show: lengths at their edge, books over several texts, memories of a wrong size.
use fields::Report;
use memory::{Memory, WordMemory};
use sheets::assembly::assemble;
use sheets::{Label, LayingFault, OpenBook};
use std::test::Fail;

/// The number, line and layer of the refusal of a text in zeroed memory.
fn refusal(rt: &HostRuntime, text: &[u8]) -> Result<(u8, u16, u8), Fail> {
    let mut memory = WordMemory::new(vec![in rt.alloc(); 0; 4096]?);
    match assemble(rt.alloc(), 512, text, &mut memory)? {
        Ok(_) => Err(Fail::new("the text was laid")),
        Err(LayingFault::MemorySize) => Err(Fail::new("the memory was refused")),
        Err(LayingFault::Sheet(fault)) => {
            let Report {
                number,
                line,
                layer,
            } = fault.report();
            Ok((number, line, layer))
        }
    }
}

#[test]
fn a_text_has_at_most_65535_bytes(rt: HostRuntime) -> Result<(), Fail> {
    let longest = vec![in rt.alloc(); b'/'; 65535]?;
    assert_eq!(rt; refusal(&rt, longest.as_slice())?, (13, 1, 3));
    let longer = vec![in rt.alloc(); b'/'; 65536]?;
    assert_eq!(rt; refusal(&rt, longer.as_slice())?, (5, 0, 3));
    Ok(())
}

#[test]
fn the_last_line_may_end_with_the_text(rt: HostRuntime) -> Result<(), Fail> {
    let mut memory = WordMemory::new(vec![in rt.alloc(); 0; 4096]?);
    let laid = assemble(rt.alloc(), 512, b"ORG FFF\nHEX BEEF\nEND", &mut memory)?;
    assert_eq!(rt; laid.ok().ok_or("refused")?, (1, 4095, 4095));
    assert_eq!(rt; memory.fetch(4095), 0xBEEF);
    assert_eq!(rt; refusal(&rt, b"")?, (13, 0, 3));
    assert_eq!(rt; refusal(&rt, b"\n\n/ no END")?, (13, 3, 3));
    Ok(())
}

#[test]
fn one_book_serves_several_texts(rt: HostRuntime) -> Result<(), Fail> {
    let mut records = [Label::BLANK; 2];
    let mut book = OpenBook::new(&mut records);
    assert_eq!(rt;
        book.take_names(b"ORG 10\nA, CLA\nEND\n")
            .ok()
            .ok_or("refused")?,
        1
    );
    assert_eq!(rt;
        book.take_names(b"B, CLA\nA, CLA\nEND\n")
            .err()
            .ok_or("taken")?
            .report()
            .number,
        9
    );
    assert_eq!(rt; book.count(), 1);
    assert_eq!(rt; book.take_names(b"B, CLA\nEND\n").ok().ok_or("refused")?, 2);
    assert_eq!(rt;
        book.take_names(b"CLA\nC, CLA\nEND\n")
            .err()
            .ok_or("taken")?
            .report()
            .number,
        10
    );
    let mut memory = WordMemory::new(vec![in rt.alloc(); 0; 4096]?);
    let laid = book
        .close()
        .lay(b"ORG 20\nLDA A\nBUN B I\nEND\n", &mut memory);
    assert_eq!(rt; laid.ok().ok_or("refused")?, (2, 0x20, 0x21));
    assert_eq!(rt; memory.fetch(0x20), 0x2010);
    assert_eq!(rt; memory.fetch(0x21), 0xC000);
    Ok(())
}

#[test]
fn a_memory_has_4096_words(rt: HostRuntime) -> Result<(), Fail> {
    let mut smaller = WordMemory::new(vec![in rt.alloc(); 7; 4095]?);
    let laid = assemble(rt.alloc(), 512, b"HEX 1\nEND\n", &mut smaller)?;
    assert_eq!(rt; laid.err().ok_or("laid")?.number(), 1);
    assert_eq!(rt; smaller.fetch(0), 7);
    let mut larger = WordMemory::new(vec![in rt.alloc(); 7; 4097]?);
    let laid = assemble(rt.alloc(), 512, b"HEX 1\nEND\n", &mut larger)?;
    assert_eq!(rt; laid.err().ok_or("laid")?.number(), 1);
    Ok(())
}
