// What a session asks of its own accord.
ghost use Rattle.std.specs.Prelude.{◌≡◌, ◌&&◌, IfErr, IfOk, None, Some, max, true, option_map};
ghost use Rattle.std.specs.Result.{result_err};
ghost use Rattle.session_texts.specs.Outcomes.{own_close};
ghost use Rattle.session_core.specs.Asking.{copies_in, durable_in, leaves_more};
ghost use Rattle.session_core.specs.Held.{holds_nothing, unsent_of};
ghost use Rattle.session_core.specs.Steps.{AsksBoth, AsksCollect, AsksOne, AsksOwn, AsksProgress, AsksSeries, KeepsState, series_event};

use crate::dues::Dues;
use crate::session::Session;
use crate::stop::Stop;
use delivery_machine::{ConsumerNumber, Event, Moment, Reply, SubscriptionName};
use session_links::{Caller, ask};
use session_texts::{Party, own_close};

/// How many events of one kind a session asks for in a turn at most.
const MOST_ASKED: u32 = 64;

/// What a consumer's session asks for until there is no more of it.
#[derive(Clone, Copy)]
pub(crate) enum Series {
    Ticks,
    Dispatches,
}

fn event_of(series: Series, subscription: SubscriptionName, now: Moment) -> Event
    ensures { result ≡ series_event series subscription now }
{
    match series {
        Series::Ticks => Event::Tick { subscription, now },
        Series::Dispatches => Event::Dispatch { subscription, now },
    }
}

/// Whether more may be asked after the reply.
fn leaves_more(reply: &Reply) -> bool
    ensures { result ≡ leaves_more reply.now }
{
    !matches!(reply, Reply::Quiet | Reply::Idle | Reply::Refused(_))
}

/// The end of the session that the reply leads to.
fn end_of(reply: &Reply) -> Result<(), Stop>
    ensures { result_err result ≡ option_map Stop.Closed (own_close reply.now) }
{
    match own_close(reply) {
        Some(close) => Err(Stop::Closed(close)),
        None => Ok(()),
    }
}

/// Whether more may be asked after the reply, where it does not end the session.
fn more_after(reply: &Reply) -> Result<bool, Stop>
    ensures ok { IfOk result (λ more. (own_close reply.now ≡ None) × (leaves_more reply.now ≡ more)) }
    ensures err { IfErr result (λ stop. option_map Stop.Closed (own_close reply.now) ≡ Some stop) }
{
    match own_close(reply) {
        Some(close) => Err(Stop::Closed(close)),
        None => Ok(leaves_more(reply)),
    }
}

fn ask_event<K: Caller>(caller: &mut K, event: Event) -> Result<bool, Stop>
    ensures { AsksOne event (K.calls caller.old) result (K.calls caller.new) }
{
    let reply = ask(caller, event);
    more_after(&reply)
}

/// Asks for one of the series, and tells whether more may be asked.
fn ask_one<K: Caller>(
    caller: &mut K,
    series: Series,
    subscription: &SubscriptionName,
    now: Moment,
) -> Result<bool, Stop>
    ensures { AsksOne (series_event series subscription.now now) (K.calls caller.old) result (K.calls caller.new) }
{
    match subscription.clone() {
        Ok(name) => ask_event(caller, event_of(series, name, now)),
        Err(_) => Err(Stop::wants_memory()),
    }
}

/// Asks until there is no more, up to 64 times. Whether there may be more then.
fn ask_series<K: Caller>(
    caller: &mut K,
    series: Series,
    subscription: &SubscriptionName,
    now: Moment,
) -> Result<bool, Stop>
    ensures { AsksSeries (series_event series subscription.now now) (K.calls caller.old) (result_err result) (K.calls caller.new) }
{
    for _ in 0..MOST_ASKED {
        match ask_one(caller, series, subscription, now) {
            Ok(true) => {}
            Ok(false) => return Ok(false),
            Err(stop) => return Err(stop),
        }
    }
    Ok(true)
}

/// Asks for ticks, and then for dispatches, where the session is free to send more. Whether more may be due is noted.
fn ask_both<K: Caller>(
    caller: &mut K,
    dues: &mut Dues,
    subscription: &SubscriptionName,
    now: Moment,
    is_free: bool,
) -> Result<bool, Stop>
    ensures { AsksBoth subscription.now now is_free (K.calls caller.old) result (K.calls caller.new) }
{
    match ask_series(caller, Series::Ticks, subscription, now) {
        Ok(is_behind) => dues.note_asked(is_behind),
        Err(stop) => return Err(stop),
    }
    if !is_free {
        return Ok(false);
    }
    match ask_series(caller, Series::Dispatches, subscription, now) {
        Ok(_) => Ok(true),
        Err(stop) => Err(stop),
    }
}

impl Session {
    /// Takes note of how much the reply says is stored.
    fn note_durable(&mut self, reply: &Reply)
        ensures durable { self.new.durable ≡ max self.old.durable (durable_in reply.now) }
        ensures party { self.new.party ≡ self.old.party }
        ensures next { self.new.next ≡ self.old.next }
        ensures unsent { unsent_of self.new ≡ unsent_of self.old }
    {
        if let Reply::Progress { durable, length: _ } = reply {
            self.durable = self.durable.max(*durable);
        }
    }

    /// Asks how much is stored.
    fn ask_progress<K: Caller>(&mut self, caller: &mut K) -> Result<(), Stop>
        ensures { AsksProgress self.old (K.calls caller.old) (result_err result) self.new (K.calls caller.new) }
    {
        let reply = ask(caller, Event::Progress);
        self.note_durable(&reply);
        end_of(&reply)
    }

    /// Takes the messages that the reply has, where it has some.
    fn take_copies(&mut self, reply: Reply)
        requires { holds_nothing self.old ≡ true }
        ensures keeps { KeepsState self.old self.new }
        ensures unsent { unsent_of self.new ≡ copies_in reply }
    {
        if let Reply::Copies(copies) = reply {
            self.copies = copies;
            self.copies_sent = 0;
        }
    }

    /// Takes what the consumer was sent.
    fn collect<K: Caller>(&mut self, caller: &mut K, consumer: ConsumerNumber) -> Result<(), Stop>
        requires { holds_nothing self.old ≡ true }
        ensures { AsksCollect consumer self.old (K.calls caller.old) (result_err result) self.new (K.calls caller.new) }
    {
        let reply = ask(caller, Event::Collect { consumer });
        let end = end_of(&reply);
        self.take_copies(reply);
        end
    }

    /// Whether it may ask for more to send.
    fn is_free(&self, has_room: bool) -> bool
        ensures { result ≡ (holds_nothing self.now && has_room) }
    {
        self.has_sent_all() && has_room
    }

    /// Asks what the session asks of its own accord, and tells whether it may have more to send.
    pub(crate) fn ask_own<K: Caller>(
        &mut self,
        caller: &mut K,
        now: Moment,
        has_room: bool,
    ) -> Result<bool, Stop>
        ensures { AsksOwn self.old now has_room (K.calls caller.old) result self.new (K.calls caller.new) }
    {
        let is_free = self.is_free(has_room);
        match &self.party {
            Party::Producer {
                number: _,
                first: _,
            } => match self.ask_progress(caller) {
                Ok(()) => Ok(true),
                Err(stop) => Err(stop),
            },
            Party::Consumer {
                number,
                subscription,
            } => {
                let number = *number;
                match ask_both(caller, &mut self.dues, subscription, now, is_free) {
                    Ok(true) => match self.collect(caller, number) {
                        Ok(()) => Ok(true),
                        Err(stop) => Err(stop),
                    },
                    Ok(false) => Ok(false),
                    Err(stop) => Err(stop),
                }
            }
            Party::Admin => Ok(false),
        }
    }
}
