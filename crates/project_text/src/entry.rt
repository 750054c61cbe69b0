// What a line of a project says.
ghost use Rattle.std.specs.Prelude.{◌≡◌, ◌≤◌, length, option_map, bytes_eq};
ghost use Rattle.std.specs.List.{list_all};
ghost use Rattle.project_text.specs.Grammar.{is_printable, is_text, is_passed_over, value_of, entry_of};
ghost use Rattle.project_text.specs.inner.Views.{entry_view};

/// What a line says; `Nothing` for an empty line and for a comment.
pub(crate) enum Entry<'a> {
    Nothing,
    Title(&'a [u8]),
    Source(&'a [u8]),
    Texture(&'a [u8]),
    Sound(&'a [u8]),
}

fn all_printable(text: &[u8]) -> bool
    ensures { result ≡ list_all is_printable text.now }
{
    text.iter().all(|b| 0x20 <= *b && *b <= 0x7e)
}

/// Whether it is 1 to `most` bytes of printable ASCII.
#[tactic(auto, unfolding(crate::specs::Grammar::is_text))]
fn is_text(most: usize, text: &[u8]) -> bool
    ensures { result ≡ is_text most text.now }
{
    1 <= text.len() && text.len() <= most && all_printable(text)
}

#[tactic(auto, unfolding(crate::specs::Grammar::is_passed_over))]
fn is_passed_over(line: &[u8]) -> bool
    ensures { result ≡ is_passed_over line.now }
{
    match line.split_first() {
        Some((first, _)) => *first == b'#',
        None => true,
    }
}

/// The text after that key and a space, where the line has one.
#[tactic(auto, using(crate::proofs::Keys::short_key), unfolding(crate::specs::Grammar::value_of))]
fn value_of<'a>(key: &[u8], most: usize, line: &'a [u8]) -> Option<&'a [u8]>
    ensures { option_map (λ x. x.now) result ≡ value_of key.now most line.now }
{
    if line.len() < key.len() {
        return None;
    }
    let (front, value) = line.split_at(key.len());
    if front == key && is_text(most, value) {
        Some(value)
    } else {
        None
    }
}

/// What the line says; `None` where it is not of the grammar.
#[tactic(auto, unfolding(crate::specs::Grammar::entry_of))]
pub(crate) fn entry_of(line: &[u8]) -> Option<Entry<'_>>
    ensures { option_map entry_view result ≡ entry_of line.now }
{
    if is_passed_over(line) {
        return Some(Entry::Nothing);
    }
    if let Some(title) = value_of(b"title ", 63, line) {
        return Some(Entry::Title(title));
    }
    if let Some(name) = value_of(b"source ", 255, line) {
        return Some(Entry::Source(name));
    }
    if let Some(name) = value_of(b"texture ", 255, line) {
        return Some(Entry::Texture(name));
    }
    if let Some(name) = value_of(b"sound ", 255, line) {
        return Some(Entry::Sound(name));
    }
    None
}
