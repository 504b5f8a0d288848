// Where a consumer may have its dead letters moved.
ghost use Rattle.std.specs.Prelude.{◌≡◌};
ghost use Rattle.endpoint_core.specs.Letters.{keeps_letters, same_namespace};

use position_core::TopicName;

/// Where a consumer may have its dead letters moved. The broker itself publishes them there, so whoever may
/// choose the topic may write to it.
#[derive(Clone, Copy, Debug, PartialEq, Eq)]
pub enum Letters {
    /// To whatever topic it names.
    Anywhere,
    /// To a topic of its own topic's tenant and namespace.
    Own,
}

fn same_namespace(a: &TopicName, b: &TopicName) -> bool
    ensures { result ≡ same_namespace a.now b.now }
{
    a.tenant.is(&b.tenant) && a.namespace.is(&b.namespace)
}

/// Whether a consumer of this topic may have its dead letters moved to the other one.
pub fn keeps_letters(letters: Letters, this: &TopicName, dead: &TopicName) -> bool
    ensures { result ≡ keeps_letters letters this.now dead.now }
{
    match letters {
        Letters::Anywhere => true,
        Letters::Own => same_namespace(this, dead),
    }
}
