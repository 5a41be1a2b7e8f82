//! The paper that a script line prints on.
ghost use Rattle.std.specs.Prelude.{◌≤◌, vec_len};

mod methods;

/// A paper of fixed size, with so many of its bytes written.
// A length beside the bytes: the paper is handed back whole, its unwritten places as they were.
#[derive(Drop)]
pub(crate) struct Paper {
    bytes: Vec<u8>,
    written: usize,
    ghost within: { written ≤ vec_len bytes },
}
