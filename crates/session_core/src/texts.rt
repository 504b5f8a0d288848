// Taking texts.
ghost use Rattle.std.specs.Prelude.{◌≡◌, ◌<◌, IfErr, IfOk, None, Some, true};
ghost use Rattle.std.specs.Result.{result_err};
ghost use Rattle.std.specs.VecDeque.{deque_capacity, deque_len};
ghost use Rattle.session_core.specs.Steps.{TakesNext, TakesReply, TakesSeen, TakesText, TakesTexts};

use crate::session::Session;
use crate::stop::Stop;
use delivery_machine::{Event, Moment};
use json::Scratch;
use session_links::{Caller, Conn, Incoming, Request, ask_for};
use session_texts::{
    Asking, Context, Outcome, answer_of_seen, number_after, outcome_of, read_text,
};

/// What came of receiving once.
#[derive(Drop)]
pub(crate) enum Received {
    Text,
    /// No further text is taken now.
    Nothing,
}

/// Whether a message is refused, which comes again after its delay.
fn is_nack(request: &Request) -> bool {
    matches!(
        request,
        Request::Event(Event::Nack {
            consumer: _,
            position: _,
            now: _,
        })
    )
}

impl Session {
    /// Calls what a text asks for, and keeps its answer.
    fn take_reply<K: Caller>(
        &mut self,
        caller: &mut K,
        request: Request,
        context: Context,
    ) -> Result<(), Stop>
        requires { deque_len self.old.waiting < deque_capacity self.old.waiting }
        ensures { TakesReply self.old request context (K.calls caller.old) (result_err result) self.new (K.calls caller.new) }
    {
        if is_nack(&request) {
            self.dues.nack();
        }
        let reply = ask_for(caller, request);
        self.next = number_after(self.next);
        match outcome_of(&self.party, context, reply) {
            Outcome::Answers(answer) => {
                self.waiting.push_back_reserved(answer);
                Ok(())
            }
            Outcome::Passes => Ok(()),
            Outcome::Closes(close) => Err(Stop::Closed(close)),
        }
    }

    /// Looks at the broker, and keeps what is seen as the answer.
    fn take_overview<K: Caller>(&mut self, caller: &mut K)
        requires { deque_len self.old.waiting < deque_capacity self.old.waiting }
        ensures { TakesSeen self.old (K.calls caller.old) self.new (K.calls caller.new) }
    {
        let seen = caller.overview();
        self.waiting.push_back_reserved(answer_of_seen(seen));
    }

    fn take_text<K: Caller>(
        &mut self,
        scratch: &mut Scratch,
        caller: &mut K,
        now: Moment,
        text: &[u8],
    ) -> Result<(), Stop>
        requires { deque_len self.old.waiting < deque_capacity self.old.waiting }
        ensures { TakesText self.old now text.now (K.calls caller.old) (result_err result) self.new (K.calls caller.new) }
    {
        let Ok(asking) = read_text(self.alloc, scratch, &self.party, now, self.next, text) else {
            return Err(Stop::wants_memory());
        };
        match asking {
            Asking::Asks { request, context } => self.take_reply(caller, request, context),
            Asking::Shows => {
                self.take_overview(caller);
                Ok(())
            }
            Asking::Answers(answer) => {
                self.waiting.push_back_reserved(answer);
                Ok(())
            }
            Asking::Closes(close) => Err(Stop::Closed(close)),
        }
    }

    /// Takes a text that came.
    fn take_came<K: Caller>(
        &mut self,
        scratch: &mut Scratch,
        caller: &mut K,
        now: Moment,
        text: &[u8],
    ) -> Result<Received, Stop>
        requires { deque_len self.old.waiting < deque_capacity self.old.waiting }
        ensures ok { IfOk result (λ what. (what ≡ Received.Text) × TakesText self.old now text.now (K.calls caller.old) None self.new (K.calls caller.new)) }
        ensures err { IfErr result (λ stop. TakesText self.old now text.now (K.calls caller.old) (Some stop) self.new (K.calls caller.new)) }
    {
        match self.take_text(scratch, caller, now, text) {
            Ok(()) => Ok(Received::Text),
            Err(stop) => Err(stop),
        }
    }

    /// Receives once, and takes what came.
    fn take_next<C: Conn, K: Caller>(
        &mut self,
        scratch: &mut Scratch,
        conn: &mut C,
        caller: &mut K,
        now: Moment,
    ) -> Result<Received, Stop>
        requires { C.is_open conn.old ≡ true }
        ensures { TakesNext self.old now (C.exchange conn.old) (K.calls caller.old) result self.new (C.exchange conn.new) (K.calls caller.new) (C.is_open conn.new) }
    {
        if self.is_full() {
            return Ok(Received::Nothing);
        }
        if self.waiting.reserve(1).is_err() {
            return Err(Stop::wants_memory());
        }
        match conn.receive() {
            Ok(Incoming::Nothing) => Ok(Received::Nothing),
            Ok(Incoming::Text(text)) => self.take_came(scratch, caller, now, text.as_slice()),
            Ok(Incoming::Gone) => Err(Stop::Gone),
            Err(_) => Err(Stop::Gone),
        }
    }

    /// Takes up to so many texts.
    pub(crate) fn take_texts<C: Conn, K: Caller>(
        &mut self,
        scratch: &mut Scratch,
        conn: &mut C,
        caller: &mut K,
        now: Moment,
        most: u32,
    ) -> Result<(), Stop>
        requires { C.is_open conn.old ≡ true }
        ensures { TakesTexts self.old now most (C.exchange conn.old) (K.calls caller.old) (result_err result) self.new (C.exchange conn.new) (K.calls caller.new) (C.is_open conn.new) }
    {
        for _ in 0..most {
            match self.take_next(scratch, conn, caller, now) {
                Ok(Received::Text) => {}
                Ok(Received::Nothing) => return Ok(()),
                Err(stop) => return Err(stop),
            }
        }
        Ok(())
    }
}
