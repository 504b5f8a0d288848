// Why connections are not served, as an operator reads it: each reason once a second at most, with how often it came.
use crate::stopwatch::Stopwatch;
use crate::tally::Tally;
use std::io::Eprint;
use std::net::IpAddr;
use std::rt::Clock;

/// Why a connection is not served.
#[derive(Clone, Copy, Debug, PartialEq, Eq)]
pub(crate) enum Trouble {
    /// It could not be had, for want of file descriptors for example.
    NotAccepted,
    /// There are too many.
    TurnedAway,
    /// There are too many of its address.
    ManyOfOne(IpAddr),
}

/// How often connections were not served, by the reason.
#[derive(Drop)]
pub(crate) struct Troubles {
    watch: Stopwatch,
    not_accepted: Tally,
    turned_away: Tally,
    many_of_one: Tally,
    /// The last address of which there were too many.
    address: Option<IpAddr>,
}

impl Troubles {
    pub(crate) fn new() -> Troubles {
        Troubles {
            watch: Stopwatch::new(),
            not_accepted: Tally::new(),
            turned_away: Tally::new(),
            many_of_one: Tally::new(),
            address: None,
        }
    }

    pub(crate) fn note(&mut self, trouble: Trouble) {
        match trouble {
            Trouble::NotAccepted => self.not_accepted.note(),
            Trouble::TurnedAway => self.turned_away.note(),
            Trouble::ManyOfOne(address) => {
                self.many_of_one.note();
                self.address = Some(address);
            }
        }
    }

    /// Says what may be told in this second.
    pub(crate) fn say<R: Clock + Eprint>(&mut self, rt: &R) {
        self.watch.look(rt);
        let second = self.watch.millis() / 1_000;
        if let Some(count) = self.not_accepted.take(second) {
            let _ = eprintln!(rt; "level=warn msg=\"connections not accepted\" count={count}");
        }
        if let Some(count) = self.turned_away.take(second) {
            let _ = eprintln!(rt; "level=warn msg=\"connections turned away\" count={count}");
        }
        self.say_address(rt, second);
    }

    fn say_address<R: Eprint>(&mut self, rt: &R, second: u64) {
        let Some(address) = self.address else {
            return;
        };
        if let Some(count) = self.many_of_one.take(second) {
            let _ = eprintln!(rt;
                "level=warn msg=\"connections of one address turned away\" address={address} count={count}"
            );
        }
    }
}
