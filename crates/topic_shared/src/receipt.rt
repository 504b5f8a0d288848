// What a caller keeps of a call.
use delivery_machine::Reply;

/// What a call was answered, and where its line stands: the journal's lines count from 0 on.
#[derive(Drop)]
pub struct Receipt {
    pub number: u64,
    pub seat: u64,
    pub reply: Reply,
}
