// What the text of an administrator stands for.
ghost use Rattle.std.specs.Prelude.{◌≡◌, IfOk, Some};
ghost use Rattle.serde_json.specs.View.{view};
ghost use Rattle.json_values.specs.Fields.{ok_as};
ghost use Rattle.wire_json.specs.Admins.{admin_for, admin_in, admin_named, admin_of, count_in, few_in, moment_in, number_in, own_named, rule_in, subscription_in, target_in};

use crate::admin_values::{
    PeekLength, count_in, few_in, moment_in, number_in, rule_in, subscription_in, target_in,
};
use delivery_machine::{Retention, Target};
use json_values::{object_of, text_at};
use position_core::{Fault, Moment, SkipLength, SubscriptionName};
use serde_json::Value;
use std::alloc::{AllocError, Global};

/// What an administrator asks for.
#[derive(Debug, Drop)]
pub enum AdminCommand {
    /// The subscription goes on from the target.
    Seek {
        subscription: SubscriptionName,
        target: Target,
    },
    /// The subscription goes on from the first message that is not earlier.
    SeekTime {
        subscription: SubscriptionName,
        time: Moment,
    },
    /// The subscription has done with so many of its next messages.
    Skip {
        subscription: SubscriptionName,
        count: SkipLength,
    },
    /// The subscription goes.
    DropSubscription {
        subscription: SubscriptionName,
    },
    /// How far the subscription is.
    Stats {
        subscription: SubscriptionName,
    },
    /// A subscription is made, with nobody at it, that goes on from the target.
    CreateSubscription {
        subscription: SubscriptionName,
        target: Target,
    },
    /// The next messages of the subscription are shown, so many.
    Peek {
        subscription: SubscriptionName,
        count: PeekLength,
    },
    /// What the topic keeps of the messages that every subscription has done with; without one, what its broker keeps.
    Keep {
        retention: Option<Retention>,
    },
    /// The session that has the number at the topic ends.
    Disconnect {
        session: u64,
    },
    /// The broker's database is copied.
    BackUp,
    /// What is seen of all topics of the broker.
    Overview,
    /// The whole topic goes.
    DeleteTopic,
}

fn keep(object: &Value) -> Result<AdminCommand, Fault>
    ensures { result ≡ ok_as AdminCommand.Keep (rule_in (view object.now)) }
{
    match rule_in(object) {
        Ok(retention) => Ok(AdminCommand::Keep { retention }),
        Err(fault) => Err(fault),
    }
}

fn seek(subscription: SubscriptionName, object: &Value) -> Result<AdminCommand, Fault>
    ensures { result ≡ ok_as (AdminCommand.Seek subscription) (target_in (view object.now)) }
{
    match target_in(object) {
        Ok(target) => Ok(AdminCommand::Seek {
            subscription,
            target,
        }),
        Err(fault) => Err(fault),
    }
}

fn seek_time(subscription: SubscriptionName, object: &Value) -> Result<AdminCommand, Fault>
    ensures { result ≡ ok_as (AdminCommand.SeekTime subscription) (moment_in (view object.now)) }
{
    match moment_in(object) {
        Ok(time) => Ok(AdminCommand::SeekTime { subscription, time }),
        Err(fault) => Err(fault),
    }
}

fn skip(subscription: SubscriptionName, object: &Value) -> Result<AdminCommand, Fault>
    ensures { result ≡ ok_as (AdminCommand.Skip subscription) (count_in (view object.now)) }
{
    match count_in(object) {
        Ok(count) => Ok(AdminCommand::Skip {
            subscription,
            count,
        }),
        Err(fault) => Err(fault),
    }
}

fn create(subscription: SubscriptionName, object: &Value) -> Result<AdminCommand, Fault>
    ensures { result ≡ ok_as (AdminCommand.CreateSubscription subscription) (target_in (view object.now)) }
{
    match target_in(object) {
        Ok(target) => Ok(AdminCommand::CreateSubscription {
            subscription,
            target,
        }),
        Err(fault) => Err(fault),
    }
}

fn peek(subscription: SubscriptionName, object: &Value) -> Result<AdminCommand, Fault>
    ensures { result ≡ ok_as (AdminCommand.Peek subscription) (few_in (view object.now)) }
{
    match few_in(object) {
        Ok(count) => Ok(AdminCommand::Peek {
            subscription,
            count,
        }),
        Err(fault) => Err(fault),
    }
}

fn disconnect(object: &Value) -> Result<AdminCommand, Fault>
    ensures { result ≡ ok_as AdminCommand.Disconnect (number_in (view object.now)) }
{
    match number_in(object) {
        Ok(session) => Ok(AdminCommand::Disconnect { session }),
        Err(fault) => Err(fault),
    }
}

/// The command of a type that makes or shows something, for this subscription.
fn own_named(
    name: &str,
    subscription: SubscriptionName,
    object: &Value,
) -> Result<AdminCommand, Fault>
    ensures { result ≡ own_named name.now subscription (view object.now) }
{
    if name == "createSubscription" {
        return create(subscription, object);
    }
    if name == "peek" {
        peek(subscription, object)
    } else {
        Err(Fault::BadJson)
    }
}

/// The command of the type, for this subscription.
fn admin_named(
    name: &str,
    subscription: SubscriptionName,
    object: &Value,
) -> Result<AdminCommand, Fault>
    ensures { result ≡ admin_named name.now subscription (view object.now) }
{
    if name == "seek" {
        return seek(subscription, object);
    }
    if name == "seekTime" {
        return seek_time(subscription, object);
    }
    if name == "skip" {
        return skip(subscription, object);
    }
    if name == "dropSubscription" {
        return Ok(AdminCommand::DropSubscription { subscription });
    }
    if name == "stats" {
        Ok(AdminCommand::Stats { subscription })
    } else {
        own_named(name, subscription, object)
    }
}

/// The command of the type, for the subscription that the object names.
fn admin_for(
    alloc: Global,
    name: &str,
    object: &Value,
) -> Result<Result<AdminCommand, Fault>, AllocError>
    ensures { IfOk result (λ said. said ≡ admin_for name.now (subscription_in (view object.now)) (view object.now)) }
{
    match subscription_in(alloc, object)? {
        Some(subscription) => Ok(admin_named(name, subscription, object)),
        None => Ok(Err(Fault::BadJson)),
    }
}

fn admin_in(alloc: Global, object: &Value) -> Result<Result<AdminCommand, Fault>, AllocError>
    ensures { IfOk result (λ said. said ≡ admin_in (Some (view object.now))) }
{
    let Some(name) = text_at("type", object) else {
        return Ok(Err(Fault::BadJson));
    };
    if name == "deleteTopic" {
        return Ok(Ok(AdminCommand::DeleteTopic));
    }
    if name == "backup" {
        return Ok(Ok(AdminCommand::BackUp));
    }
    if name == "overview" {
        return Ok(Ok(AdminCommand::Overview));
    }
    if name == "keep" {
        return Ok(keep(object));
    }
    if name == "disconnect" {
        return Ok(disconnect(object));
    }
    admin_for(alloc, name, object)
}

/// Reads what an administrator sent.
pub fn read_admin(alloc: Global, text: &[u8]) -> Result<Result<AdminCommand, Fault>, AllocError>
    ensures { IfOk result (λ said. said ≡ admin_of text.now) }
{
    match object_of(alloc, text)? {
        Some(object) => admin_in(alloc, &object),
        None => Ok(Err(Fault::BadJson)),
    }
}
