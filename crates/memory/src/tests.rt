//! Examples, worked out by hand.
use crate::image_memory::ImageMemory;
use crate::memory::Memory;
use crate::word_memory::WordMemory;
use std::test::Fail;

#[test]
fn words_are_fetched_and_stored(rt: HostRuntime) -> Result<(), Fail> {
    let mut memory = WordMemory::new([0x1111, 0x2222, 0x3333].to_vec(rt.alloc())?);
    assert_eq!(rt; memory.size(), 3);
    assert_eq!(rt; memory.fetch(2), 0x3333);
    assert_eq!(rt; memory.fetch(3), 0);
    memory.store(1, 0xABCD);
    memory.store(3, 0xFFFF);
    assert_eq!(rt;
        memory.into_words().as_slice(),
        [0x1111, 0xABCD, 0x3333].as_slice()
    );
    Ok(())
}

#[test]
fn an_odd_last_byte_is_no_word(rt: HostRuntime) -> Result<(), Fail> {
    let mut memory = ImageMemory::new([0x12, 0x34, 0x56, 0x78, 0x9A].to_vec(rt.alloc())?);
    assert_eq!(rt; memory.size(), 2);
    assert_eq!(rt; memory.fetch(0), 0x1234);
    assert_eq!(rt; memory.fetch(1), 0x5678);
    assert_eq!(rt; memory.fetch(2), 0);
    memory.store(1, 0xABCD);
    memory.store(2, 0xFFFF);
    assert_eq!(rt;
        memory.into_bytes().as_slice(),
        [0x12, 0x34, 0xAB, 0xCD, 0x9A].as_slice()
    );
    Ok(())
}
