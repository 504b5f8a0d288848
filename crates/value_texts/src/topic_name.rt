// The texts of topics' names.
ghost use Rattle.std.specs.Prelude.{◌≡◌, ℕ, List, ◌∷◌, ◌++◌, IsTrue, IfOk, IfSome, IfNone, IsSomeAnd};
ghost use Rattle.position_core.specs.Name.{is_name};
ghost use Rattle.position_core.specs.TopicName.{scheme, text_of_parts, topic_text};
ghost use Rattle.position_core.specs.declared.topic_name.TopicName.{TopicName};

use position_core::TopicName;
use std::alloc::{AllocError, Global};

/// What follows the scheme.
fn after_scheme(text: &str) -> Option<&str>
    ensures some { IfSome result (λ rest. text.now ≡ scheme ++ rest.now) }
    ensures all_parted { (rest : List ℕ) → text.now ≡ scheme ++ rest → IsSomeAnd result (λ r. r.now ≡ rest) }
{
    text.strip_prefix("persistent://")
}

/// What stands before the first `/`, and what stands after it.
fn split_at_slash(text: &str) -> Option<(&str, &str)>
    ensures some { IfSome result (λ r. text.now ≡ r.0.now ++ 47 ∷ r.1.now) }
    ensures all_parted { (name rest : List ℕ) → IsTrue (is_name name) → text.now ≡ name ++ 47 ∷ rest → IsSomeAnd result (λ r. (r.0.now ≡ name) × (r.1.now ≡ rest)) }
{
    text.split_once('/')
}

fn parts_of(text: &str) -> Option<(&str, &str, &str)>
    ensures some { IfSome result (λ r. text.now ≡ text_of_parts r.0.now r.1.now r.2.now) }
    ensures all_parted { (tenant namespace topic : List ℕ) → IsTrue (is_name tenant) → IsTrue (is_name namespace) → text.now ≡ text_of_parts tenant namespace topic → IsSomeAnd result (λ r. (r.0.now ≡ tenant) × (r.1.now ≡ namespace) × (r.2.now ≡ topic)) }
{
    let (tenant, rest) = split_at_slash(after_scheme(text)?)?;
    let (namespace, topic) = split_at_slash(rest)?;
    Some((tenant, namespace, topic))
}

/// The topic's name that the text is, where it is one.
pub fn read_topic_name(alloc: Global, text: &str) -> Result<Option<TopicName>, AllocError>
    ensures read { IfOk result (λ found. IfSome found (λ name. text.now ≡ topic_text name)) }
    ensures all_read { IfOk result (λ found. IfNone found ((name : TopicName) → IsTrue (is_name name.tenant) → IsTrue (is_name name.namespace) → IsTrue (is_name name.topic) → text.now ≡ topic_text name → ⊥)) }
{
    match parts_of(text) {
        Some((tenant, namespace, topic)) => TopicName::from_names(alloc, tenant, namespace, topic),
        None => Ok(None),
    }
}
