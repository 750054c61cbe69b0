// The tests of a file, in their order.
ghost use Rattle.std.specs.Prelude.{◌≡◌, ◌≤◌, ◌<◌, ◌+◌, ◌*◌, length, nat_lt, nat_le};
ghost use Rattle.asset_pack.specs.Tests.{is_side, in_range, count, head, front_fault, file_fault, size};

use crate::error::AssetFault;
use crate::kind::Kind;
use crate::words::word_at;

fn is_side(n: u32) -> bool
    ensures { result ≡ is_side n }
{
    1 <= n && n <= 1024
}

/// Whether the sizes are in range.
#[tactic(auto, unfolding(crate::specs::Tests::in_range))]
fn in_range(kind: Kind, bytes: &[u8]) -> bool
    requires { head kind ≤ length bytes.now }
    ensures { result ≡ in_range kind bytes.now }
{
    match kind {
        Kind::Words => word_at(bytes, 8) <= 33_554_432,
        Kind::Texture => is_side(word_at(bytes, 8)) && is_side(word_at(bytes, 12)),
        Kind::Sound => 1 <= word_at(bytes, 8) && word_at(bytes, 8) <= 33_554_432,
    }
}

/// How many words follow the sizes.
#[tactic(auto, unfolding(crate::specs::Tests::count))]
pub(crate) fn count(kind: Kind, bytes: &[u8]) -> usize
    requires { head kind ≤ length bytes.now }
    ensures { result ≡ count kind bytes.now }
{
    match kind {
        Kind::Words | Kind::Sound => word_at(bytes, 8) as usize,
        Kind::Texture => word_at(bytes, 8) as usize * word_at(bytes, 12) as usize,
    }
}

/// The first test that fails of those that let bytes follow; `None` where the bytes begin with a
/// file of that kind.
#[tactic(auto, using(crate::proofs::Accepted::few), unfolding(crate::specs::Tests::front_fault))]
pub fn front_fault(kind: Kind, bytes: &[u8]) -> Option<AssetFault>
    ensures { result ≡ front_fault kind bytes.now }
{
    if bytes.len() < 8 {
        return Some(AssetFault { code: 71 });
    }
    if &bytes[..8] != kind.signature() {
        return Some(AssetFault { code: 70 });
    }
    if bytes.len() < kind.head() {
        return Some(AssetFault { code: 71 });
    }
    if !in_range(kind, bytes) {
        return Some(AssetFault { code: 72 });
    }
    if bytes.len() < kind.head() + 4 * count(kind, bytes) {
        return Some(AssetFault { code: 71 });
    }
    None
}

/// The first test that fails; `None` where the bytes are a file of that kind.
#[tactic(auto, using(crate::proofs::Accepted::head_within, crate::proofs::Accepted::head_long), unfolding(crate::specs::Tests::file_fault))]
pub(crate) fn file_fault(kind: Kind, bytes: &[u8]) -> Option<AssetFault>
    ensures { result ≡ file_fault kind bytes.now }
{
    if let Some(e) = front_fault(kind, bytes) {
        return Some(e);
    }
    if bytes.len() > kind.head() + 4 * count(kind, bytes) {
        return Some(AssetFault { code: 73 });
    }
    None
}
