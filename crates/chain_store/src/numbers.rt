//! Numbers in bytes, the least byte first.
ghost use Rattle.std.specs.Prelude.{◌≡◌, ◌⊎◌, ◌+◌, ◌≤◌, ℕ, length};
ghost use Rattle.page_journal.specs.Pages.{number};
ghost use Rattle.chain_store.specs.Links.{half_number};

/// The number of eight bytes at this place.
pub fn number_at(bytes: &[u8], at: usize) -> u64
    requires { at + 8 ≤ length bytes.now }
    ensures { result ≡ number bytes.now at }
{
    let mut spelled = [0; 8];
    spelled.copy_from_slice(&bytes[at..at + 8]);
    u64::from_le_bytes(spelled)
}

/// The number of four bytes at this place.
pub fn half_at(bytes: &[u8], at: usize) -> u32
    requires { at + 4 ≤ length bytes.now }
    ensures { result ≡ half_number bytes.now at }
{
    let mut spelled = [0; 4];
    spelled.copy_from_slice(&bytes[at..at + 4]);
    u32::from_le_bytes(spelled)
}
