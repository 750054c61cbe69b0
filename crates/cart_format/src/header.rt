// The tests of a cartridge's header, in their order.
ghost use Rattle.std.specs.Prelude.{◌≡◌, ◌≤◌, length};
ghost use Rattle.std.specs.List.{list_all};
ghost use Rattle.cart_format.specs.Cartridge.{is_printable, is_title};
ghost use Rattle.cart_format.specs.Tests.{is_zero, until_zero, is_title_field, is_in_range, is_revision, header_fault};

use crate::error::CartFault;
use asset_pack::word_at;

/// The longest cartridge, in bytes.
pub(crate) const CART_LIMIT: usize = 268_435_456;

/// Whether all of them are zeros.
pub(crate) fn all_zero(bytes: &[u8]) -> bool
    ensures { result ≡ list_all is_zero bytes.now }
{
    bytes.iter().all(|b| *b == 0)
}

/// What stands before the first zero.
#[tactic(auto, using(crate::proofs::Titles::until_here, crate::proofs::Titles::until_more, crate::proofs::Titles::until_end))]
pub(crate) fn until_zero(bytes: &[u8]) -> &[u8]
    ensures { result.now ≡ until_zero bytes.now }
{
    let mut at = 0;
    'each: for b in bytes {
        if *b == 0 {
            return &bytes[..at];
        }
        at += 1;
    }
    bytes
}

fn all_printable(text: &[u8]) -> bool
    ensures { result ≡ list_all is_printable text.now }
{
    text.iter().all(|b| 0x20 <= *b && *b <= 0x7e)
}

/// Whether it is a title: 1 to 63 bytes of printable ASCII.
#[tactic(auto, unfolding(crate::specs::Cartridge::is_title))]
pub(crate) fn is_title(title: &[u8]) -> bool
    ensures { result ≡ is_title title.now }
{
    1 <= title.len() && title.len() <= 63 && all_printable(title)
}

#[tactic(auto, using(crate::proofs::Titles::until_zero_within), unfolding(crate::specs::Tests::is_title_field))]
fn is_title_field(field: &[u8]) -> bool
    ensures { result ≡ is_title_field field.now }
{
    let title = until_zero(field);
    is_title(title) && all_zero(&field[title.len()..])
}

#[tactic(auto, unfolding(crate::specs::Tests::is_in_range))]
fn is_in_range(bytes: &[u8]) -> bool
    requires { 128 ≤ length bytes.now }
    ensures { result ≡ is_in_range bytes.now }
{
    let words = word_at(bytes, 16);
    1 <= words
        && words <= 33_554_432
        && word_at(bytes, 20) <= 256
        && word_at(bytes, 24) <= 1024
        && is_title_field(&bytes[28..92])
        && all_zero(&bytes[92..128])
}

fn is_revision(n: u32) -> bool
    ensures { result ≡ is_revision n }
{
    n == 1 || n == 2
}

/// The first test of the header that fails.
#[tactic(auto, unfolding(crate::specs::Tests::header_fault))]
pub(crate) fn header_fault(bytes: &[u8]) -> Option<CartFault>
    ensures { result ≡ header_fault bytes.now }
{
    if bytes.len() > CART_LIMIT {
        return Some(CartFault::At { code: 85 });
    }
    if bytes.len() < 128 {
        return Some(CartFault::At { code: 81 });
    }
    if &bytes[..8] != b"KIT-CART".as_slice() {
        return Some(CartFault::At { code: 80 });
    }
    if !is_revision(word_at(bytes, 8)) {
        return Some(CartFault::At { code: 86 });
    }
    if !is_in_range(bytes) {
        return Some(CartFault::At { code: 82 });
    }
    let total = word_at(bytes, 12) as usize;
    if bytes.len() < total {
        return Some(CartFault::At { code: 81 });
    }
    if bytes.len() > total {
        return Some(CartFault::At { code: 84 });
    }
    None
}
