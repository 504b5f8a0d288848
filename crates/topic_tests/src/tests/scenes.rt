// Tests over messages: what a view over lists shows, the law of a dispatcher, and who is offered what, step by
// step, with the answers that the rules of each kind give; and that the calls of logs and lists succeed.
mod counted;
mod deliveries;
mod in_order;
mod keyed;
mod law;
mod lists;
mod log;
mod member;
mod message;
mod scene;
mod shared;
mod subscription;
mod tables;
mod told;
mod topic;
mod view;
mod view_calls;
