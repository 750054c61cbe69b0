// A bus over a list of answers.
use crate::bus::Bus;
use kit_base::Event;
use std::marker::Model;
use v32_isa::Port;

/// Answers from a list, in order and whatever the port, and keeps the event that was made last.
#[derive(Drop)]
pub struct AnswerBus {
    answers: Vec<u32>,
    used: usize,
    last: Option<Event>,
}

impl Model for AnswerBus {
    ghost use Rattle.std.specs.Prelude.{◌≤◌, length, drop};
    ghost use Rattle.cpu_core.specs.Answers.{Answers};

    ghost Value = { Answers };

    ghost view = { λ b. record { left = drop b.used b.answers.items; made = b.last } };

    ghost invariant = { λ b. b.used ≤ length b.answers.items };
}

impl Bus for AnswerBus {
    ghost use Rattle.cpu_core.specs.Answers.{Answering, Telling};

    ghost input_gives = { Answering };

    ghost output_gives = { Telling };

    fn input(&mut self, port: Port) -> Option<u32> {
        if self.used < self.answers.len() {
            let word = self.answers[self.used];
            self.used += 1;
            self.last = Some(Event::In(port.number(), word));
            Some(word)
        } else {
            None
        }
    }

    fn output(&mut self, port: Port, word: u32) {
        self.last = Some(Event::Out(port.number(), word));
    }
}

ghost use Rattle.std.specs.Prelude.{◌≡◌, None};

impl AnswerBus {
    /// The bus over these answers. No event was made yet.
    pub fn new(answers: Vec<u32>) -> AnswerBus
        ensures left { result.left ≡ answers.items }
        ensures none { result.made ≡ None }
    {
        AnswerBus {
            answers,
            used: 0,
            last: None,
        }
    }

    /// Takes out the event that was made last; none where none was made since the bus was made or
    /// this was asked.
    pub fn last(&mut self) -> Option<Event>
        ensures value { result ≡ self.old.made }
        ensures after { self.new ≡ record self.old { made = None } }
    {
        self.last.take()
    }
}
