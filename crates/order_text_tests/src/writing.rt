//! What is written of an order.

use jvm_base::Name;
use machine_state::{Choice, Order};
use order_text::write_order;
use std::test::Fail;

const EACH_OTHER: Choice = Choice {
    thread: 0,
    pick: 1,
    name: Name {
        node: 2,
        class: 30,
        index: 405,
    },
};

const EACH_GREATEST: Choice = Choice {
    thread: 4_294_967_295,
    pick: 4_294_967_295,
    name: Name {
        node: 255,
        class: 16_777_215,
        index: 4_294_967_295,
    },
};

const TEXT: &[u8] =
    b"cjvm-order 1\n0 1 2.30.405\n4294967295 4294967295 255.16777215.4294967295\nend\n";

#[test]
fn writes_each_number_at_its_place(rt: HostRuntime) -> Result<(), Fail> {
    let mut order = Order::new(rt.alloc());
    order.push(EACH_OTHER)?;
    order.push(EACH_GREATEST)?;
    let text = write_order(rt.alloc(), &order)?;
    assert!(rt; text.as_slice() == TEXT);
    Ok(())
}
