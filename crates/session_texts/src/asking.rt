// What a text asks for.
use crate::answer::Answer;
use crate::close::Close;
use crate::context::Context;
use session_links::Request;

/// What a text asks for.
#[derive(Drop)]
pub enum Asking {
    /// What the topic is asked, and the context of its answer.
    Asks { request: Request, context: Context },
    /// What is seen of all topics of the broker is to be shown: nothing is asked of the topic.
    Shows,
    /// Nothing of the topic: it is answered at once.
    Answers(Answer),
    Closes(Close),
}
