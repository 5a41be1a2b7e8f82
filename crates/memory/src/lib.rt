//! Memories of 16-bit words: the trait that every user of a memory is proved against, and two memories.
#![tactic(auto)]

pub mod image_memory;
pub mod memory;
#[cfg(test)]
mod tests;
pub mod word_memory;

pub use image_memory::ImageMemory;
pub use memory::Memory;
pub use word_memory::WordMemory;
