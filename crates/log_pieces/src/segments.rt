// A row of segments that several logs may share as a whole.
ghost use Rattle.std.specs.Prelude.{◌≡◌, [], ◌∷◌, ◌++◌, drop, length, slice_get, IfOk};
ghost use Rattle.std.specs.Option.{option_copied};

use crate::segment::Segment;
use std::alloc::{AllocError, Global};
use std::marker::Model;
use std::sync::Arc;

/// A clone is one more owner of the same row, whatever its length.
#[derive(Drop)]
pub(crate) struct Segments {
    row: Option<Arc<Vec<Segment>>>,
}

impl Model for Segments {
    ghost use Rattle.std.specs.Prelude.{List, []};
    ghost use Rattle.std.specs.Option.{option_map_or};
    ghost use Rattle.position_core.specs.declared.message.Entry.{Entry};

    ghost Value = { List (List Entry) };

    ghost view = { λ s. option_map_or (λ row. row.value.items) s.row [] };
}

fn segment_at(segments: &[Segment], place: usize) -> Option<&Segment>
    ensures { option_copied result ≡ slice_get segments.now place }
{
    segments.get(place)
}

/// Those after the first ones, where there are more.
fn segments_from(segments: &[Segment], gone: usize) -> &[Segment]
    ensures { result.now ≡ drop gone segments.now }
{
    &segments[gone.min(segments.len())..]
}

/// The segments as a row of its own, with room for one more.
fn shared(alloc: Global, segments: &[Segment]) -> Result<Vec<Segment>, AllocError>
    ensures { IfOk result (λ copy. copy.items ≡ segments.now) }
{
    let mut copy = Vec::with_capacity(alloc, segments.len() + 1)?;
    copy.extend_with_clones(segments)?;
    Ok(copy)
}

impl Segments {
    /// Without segments, and without memory.
    pub(crate) fn none() -> Self
        ensures { result ≡ [] }
    {
        Segments { row: None }
    }

    pub(crate) fn len(&self) -> usize
        ensures { result ≡ length self.now }
    {
        match &self.row {
            Some(row) => row.len(),
            None => 0,
        }
    }

    pub(crate) fn get(&self, place: usize) -> Option<&Segment>
        ensures { option_copied result ≡ slice_get self.now place }
    {
        match &self.row {
            Some(row) => segment_at(row, place),
            None => None,
        }
    }

    fn copied(&self, alloc: Global, gone: usize) -> Result<Vec<Segment>, AllocError>
        ensures { IfOk result (λ copy. copy.items ≡ drop gone self.now) }
    {
        match &self.row {
            Some(row) => shared(alloc, segments_from(row, gone)),
            None => Ok(Vec::new(alloc)),
        }
    }

    /// A row of its own, without so many of the first segments, and with one more at the end. Takes a step
    /// for each segment.
    pub(crate) fn with(
        &self,
        alloc: Global,
        gone: usize,
        segment: Segment,
    ) -> Result<Self, AllocError>
        ensures { IfOk result (λ row. row ≡ drop gone self.now ++ segment ∷ []) }
    {
        let mut segments = self.copied(alloc, gone)?;
        segments.push(segment)?;
        Ok(Segments {
            row: Some(Arc::new(alloc, segments)?),
        })
    }
}

impl Clone for Segments {
    ghost is_clone = { λ row copy. copy ≡ row };

    fn clone(&self) -> Result<Self, AllocError> {
        match &self.row {
            Some(row) => Ok(Segments {
                row: Some(Arc::try_clone(row)?),
            }),
            None => Ok(Segments { row: None }),
        }
    }
}
