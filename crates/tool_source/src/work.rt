// The words.
use line_text::decimal_word;
use std::alloc::Global;

/// Mid code as it is lowered; with scalars promoted; and settled, with all scalars promoted, as places are chosen for.
#[derive(Clone, Copy, Drop)]
pub enum Stage {
    Lowered,
    Promoted,
    Settled,
}

/// How a source is run: by its meaning, or by its mid code.
#[derive(Clone, Copy, Drop)]
pub enum How {
    Meaning,
    Code(Stage),
}

/// A run that is asked for: the files of the source and of the port answers, whether a card of zeros is connected, the bound, how it is run, and
/// the sizes of the frames.
#[derive(Drop)]
pub struct Work<'a> {
    pub source: &'a str,
    pub answers: &'a str,
    pub card: bool,
    pub bound: u32,
    pub how: How,
    pub sizes: Vec<u32>,
}

fn stage_of(word: &str) -> Option<Stage> {
    match word {
        "lowered" => Some(Stage::Lowered),
        "promoted" => Some(Stage::Promoted),
        "settled" => Some(Stage::Settled),
        _ => None,
    }
}

fn how_of(word: &str) -> Option<How> {
    if word == "meaning" {
        Some(How::Meaning)
    } else {
        Some(How::Code(stage_of(word)?))
    }
}

/// The source and the stage whose mid code `SOURCE text lowered|promoted|settled` asks for; none where the words are no such ones.
pub fn text_of(words: &[String]) -> Option<(&str, Stage)> {
    let [source, text, stage] = words else {
        return None;
    };
    if text.as_str() != "text" {
        return None;
    }
    Some((source.as_str(), stage_of(stage.as_str())?))
}

/// What `SOURCE ANSWERS none|zeros BOUND meaning|lowered|promoted|settled SIZE ..` ask for; none where they are no such words, or memory ran out.
pub fn work_of(alloc: Global, words: &[String]) -> Option<Work<'_>> {
    let [source, answers, card, bound, how, rest @ ..] = words else {
        return None;
    };
    let card = match card.as_str() {
        "none" => false,
        "zeros" => true,
        _ => return None,
    };
    let bound = decimal_word(bound.as_str().as_bytes())?;
    let how = how_of(how.as_str())?;
    let mut sizes = Vec::new(alloc);
    for word in rest {
        sizes.push(decimal_word(word.as_str().as_bytes())?).ok()?;
    }
    Some(Work {
        source: source.as_str(),
        answers: answers.as_str(),
        card,
        bound,
        how,
        sizes,
    })
}
