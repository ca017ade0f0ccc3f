// What every crate of the file's format stands on: little-endian numbers in bytes, and the refusals (document 01, "The file", "Refused").
#![tactic(auto)]

mod refusal;

ghost use Rattle.std.specs.Prelude.{◌≡◌, ◌+◌, ◌≤◌, length};
ghost use Rattle.std.proofs.lemmas.List.Edits.{sets};
ghost use Rattle.record.specs.Bytes.{u32_at, u64_at, f64_at, u32_bytes, u64_bytes};
ghost use Rattle.record.specs.Views.{old, final};

pub use refusal::Refusal;

// The two widths: the library's one call each, where a trait for both would be longer. Byte by byte, since `first_chunk` leaves tests
// of the length in the machine code, and a list of nodes then takes 1.7 times as long to test.
#[tactic(auto, unfolding(crate::specs::Bytes::u32_at))]
pub fn read_u32(b: &[u8], at: usize) -> u32
    requires { at + 4 ≤ length b.now }
    ensures { result ≡ u32_at b.now at }
{
    u32::from_le_bytes([b[at], b[at + 1], b[at + 2], b[at + 3]])
}

#[tactic(auto, unfolding(crate::specs::Bytes::u32_at, crate::specs::Bytes::u64_at))]
pub fn read_u64(b: &[u8], at: usize) -> u64
    requires { at + 8 ≤ length b.now }
    ensures { result ≡ u64_at b.now at }
{
    u64::from_le_bytes([
        b[at],
        b[at + 1],
        b[at + 2],
        b[at + 3],
        b[at + 4],
        b[at + 5],
        b[at + 6],
        b[at + 7],
    ])
}

#[tactic(auto, unfolding(crate::specs::Bytes::f64_at))]
pub fn read_f64(b: &[u8], at: usize) -> f64
    requires { at + 8 ≤ length b.now }
    ensures { result ≡ f64_at b.now at }
{
    number::of_bits(read_u64(b, at))
}

#[tactic(auto, using(crate::proofs::Slices::put_at), unfolding(crate::specs::Bytes::u32_bytes))]
pub fn write_u32(b: &mut [u8], at: usize, n: u32)
    requires { at + 4 ≤ length b.old }
    ensures { final b ≡ sets (old b) at (u32_bytes n) }
{
    b[at..at + 4].copy_from_slice(&n.to_le_bytes());
}

#[tactic(auto, using(crate::proofs::Slices::put_u64))]
pub fn write_u64(b: &mut [u8], at: usize, n: u64)
    requires { at + 8 ≤ length b.old }
    ensures { final b ≡ sets (old b) at (u64_bytes n) }
{
    b[at..at + 8].copy_from_slice(&n.to_le_bytes());
}
