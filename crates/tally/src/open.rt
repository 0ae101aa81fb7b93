ghost use Rattle.std.specs.Prelude.{◌≡◌, [], MatchResult};
ghost use Rattle.algebra.specs.Refusals.{reply};
ghost use Rattle.tally.specs.declared.call.Call.TheVariants.{Enter, Withdraw};
ghost use Rattle.tally.specs.Contents.{answering};
ghost use Rattle.tally.specs.Logs.{Log, line};
ghost use Rattle.tally.specs.Bodies.{Fresh, Moves, Keeps, Continues, FollowsNets};

use crate::call::Call;
use crate::closed::Closed;
use crate::frame::Frame;
use crate::sums::Sums;
use algebra::code::Code;
use algebra::field::Field;
use algebra::refusal::Refusal;
use std::marker::Model;

/// A tally that codes are entered into and withdrawn from.
#[derive(Drop)]
pub struct Open<F> {
    pub(crate) body: Sums<F>,
}

impl<F> Model for Open<F> {
    ghost use Rattle.tally.specs.declared.sums.Sums.{Sums};

    ghost Value = { Sums F };

    ghost view = { λ t. t.body };
}

impl<F: Field> Open<F> {
    /// A tally of a frame in which nothing was moved.
    pub fn open(frame: Frame) -> Open<F>
        ensures fresh { Fresh F.Ring frame result }
        ensures logged { Keeps F.Ring F.Field.own [] result }
    {
        Open {
            body: Sums::blank(frame),
        }
    }

    /// Enters a quantity of a code.
    pub fn enter(&mut self, code: Code, quantity: u32) -> Result<(), Refusal>
        ensures answers { reply result ≡ answering F.Field.order self.old.turnover code.0 quantity }
        ensures moves { MatchResult result (λ _. Moves F.Ring F.Field.own Enter code.0 quantity self.old self.new) (λ _. self.new ≡ self.old) }
        ensures framed { self.new.frame ≡ self.old.frame }
        ensures logged { Continues F.Ring F.Field.own (line Enter code.0 quantity (reply result)) self.old self.new }
    {
        self.body.call(Call::Enter, code, quantity)
    }

    /// Withdraws a quantity of a code, also where none was entered.
    pub fn withdraw(&mut self, code: Code, quantity: u32) -> Result<(), Refusal>
        ensures answers { reply result ≡ answering F.Field.order self.old.turnover code.0 quantity }
        ensures moves { MatchResult result (λ _. Moves F.Ring F.Field.own Withdraw code.0 quantity self.old self.new) (λ _. self.new ≡ self.old) }
        ensures framed { self.new.frame ≡ self.old.frame }
        ensures logged { Continues F.Ring F.Field.own (line Withdraw code.0 quantity (reply result)) self.old self.new }
    {
        self.body.call(Call::Withdraw, code, quantity)
    }

    /// Ends the entering. The closed tally has the same contents, and so the same log.
    pub fn close(self) -> Closed<F>
        ensures same { result ≡ self }
        ensures logged { (log : Log) → Keeps F.Ring F.Field.own log self → Keeps F.Ring F.Field.own log result }
        ensures netted { (log : Log) → Keeps F.Ring F.Field.own log self → FollowsNets F.Ring F.Field.own log result }
    {
        let Open { body } = self;
        Closed { body }
    }
}
