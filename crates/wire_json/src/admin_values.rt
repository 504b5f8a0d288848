// What the fields of an administrator's text say.
ghost use Rattle.std.specs.Prelude.{◌≡◌, IfOk};
ghost use Rattle.serde_json.specs.View.{view};
ghost use Rattle.json_values.specs.Objects.{between};
ghost use Rattle.wire_json.specs.Admins.{age_in, count_in, few_in, messages_in, moment_in, number_in, rule_counted, rule_in, rule_named, subscription_in, target_in, target_of};

use crate::commands::id_of;
use delivery_machine::{KeptAge, KeptMessages, Retention, Target};
use json_values::{text_at, whole_at};
use position_core::{Bounded, Fault, Moment, SkipLength, SubscriptionName};
use serde_json::Value;
use std::alloc::{AllocError, Global};

/// How many messages are shown at once.
pub type PeekLength = Bounded<1, 100>;

/// The subscription that a command is of.
pub(crate) fn subscription_in(
    alloc: Global,
    object: &Value,
) -> Result<Option<SubscriptionName>, AllocError>
    ensures { IfOk result (λ found. found ≡ subscription_in (view object.now)) }
{
    match text_at("subscription", object) {
        Some(text) => SubscriptionName::from_text(alloc, text),
        None => Ok(None),
    }
}

/// Where a text says to go on from.
fn target_of(text: &str) -> Option<Target>
    ensures { result ≡ target_of text.now }
{
    if text == "earliest" {
        return Some(Target::Earliest);
    }
    if text == "latest" {
        return Some(Target::Latest);
    }
    match id_of(text) {
        Some(position) => Some(Target::At(position)),
        None => None,
    }
}

pub(crate) fn target_in(object: &Value) -> Result<Target, Fault>
    ensures { result ≡ target_in (view object.now) }
{
    match text_at("position", object) {
        Some(text) => target_of(text).ok_or(Fault::BadId),
        None => Err(Fault::BadJson),
    }
}

fn moment_from(number: u64) -> Option<Moment>
    ensures { result ≡ between 0 253402300799999 number }
{
    Moment::new(number)
}

pub(crate) fn moment_in(object: &Value) -> Result<Moment, Fault>
    ensures { result ≡ moment_in (view object.now) }
{
    match whole_at("time", object) {
        Some(number) => moment_from(number).ok_or(Fault::BadJson),
        None => Err(Fault::BadJson),
    }
}

fn count_from(number: u64) -> Option<SkipLength>
    ensures { result ≡ between 0 2147483647 number }
{
    if number > 2_147_483_647 {
        return None;
    }
    SkipLength::new(number as u32)
}

pub(crate) fn count_in(object: &Value) -> Result<SkipLength, Fault>
    ensures { result ≡ count_in (view object.now) }
{
    match whole_at("messages", object) {
        Some(number) => count_from(number).ok_or(Fault::BadJson),
        None => Err(Fault::BadJson),
    }
}

fn few_from(number: u64) -> Option<PeekLength>
    ensures { result ≡ between 1 100 number }
{
    if number > 100 {
        return None;
    }
    PeekLength::new(number as u32)
}

/// How many messages are to be shown.
pub(crate) fn few_in(object: &Value) -> Result<PeekLength, Fault>
    ensures { result ≡ few_in (view object.now) }
{
    match whole_at("messages", object) {
        Some(number) => few_from(number).ok_or(Fault::BadJson),
        None => Err(Fault::BadJson),
    }
}

/// The number of a session.
pub(crate) fn number_in(object: &Value) -> Result<u64, Fault>
    ensures { result ≡ number_in (view object.now) }
{
    whole_at("session", object).ok_or(Fault::BadJson)
}

/// What a name says to keep: all, or what the broker keeps.
fn rule_named(name: &str) -> Result<Option<Retention>, Fault>
    ensures { result ≡ rule_named name.now }
{
    if name == "all" {
        return Ok(Some(Retention::All));
    }
    if name == "default" {
        Ok(None)
    } else {
        Err(Fault::BadJson)
    }
}

fn messages_in(number: u64) -> Option<Retention>
    ensures { result ≡ messages_in number }
{
    if number > 1_048_576 {
        return None;
    }
    match KeptMessages::new(number as u32) {
        Some(messages) => Some(Retention::Messages(messages)),
        None => None,
    }
}

fn age_in(number: u64) -> Option<Retention>
    ensures { result ≡ age_in number }
{
    match KeptAge::new(number) {
        Some(age) => Some(Retention::Age(age)),
        None => None,
    }
}

/// How much is to be kept, where no name says it: so many messages, or else those of so many milliseconds.
fn rule_counted(object: &Value) -> Option<Retention>
    ensures { result ≡ rule_counted (view object.now) }
{
    match whole_at("messages", object) {
        Some(number) => messages_in(number),
        None => match whole_at("millis", object) {
            Some(number) => age_in(number),
            None => None,
        },
    }
}

/// What a topic is to keep.
pub(crate) fn rule_in(object: &Value) -> Result<Option<Retention>, Fault>
    ensures { result ≡ rule_in (view object.now) }
{
    match text_at("keep", object) {
        Some(name) => rule_named(name),
        None => match rule_counted(object) {
            Some(rule) => Ok(Some(rule)),
            None => Err(Fault::BadJson),
        },
    }
}
