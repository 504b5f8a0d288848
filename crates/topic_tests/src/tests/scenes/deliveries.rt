// That copies of deliveries are made where there is memory.
use super::message::{message_at, position_at};
use delivery_machine::{Deliveries, Delivery};
use std::process::Abort;

fn three_deliveries<R: Abort + AllocGlobal>(rt: &R) -> Deliveries {
    let mut deliveries = Deliveries::new(rt.alloc());
    for entry in 0..3 {
        let message = message_at(rt, position_at(entry), None);
        let done = deliveries.push(Delivery { message, count: 0 });
        done.expect(rt, "no memory");
    }
    deliveries
}

fn check_copies<R: Abort>(rt: &R, copies: &[Delivery]) {
    assert!(rt; copies.len() == 2);
    assert!(rt; copies[1].message.position() == position_at(2));
}

#[test]
fn a_clone_has_all_copies(rt: HostRuntime) {
    let mut deliveries = three_deliveries(&rt);
    deliveries.leave_out(&[position_at(1)]);
    let copies = deliveries.clone().expect(&rt, "no memory");
    deliveries.drop_last();
    assert!(rt; deliveries.as_slice().len() == 1);
    check_copies(&rt, copies.as_slice());
}
