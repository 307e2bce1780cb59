//! Messages on their way: posted, spent and found.

use lu_base::{Node, Stamp, Who};
use lu_msg::Message;
use lu_net::{Links, Sent};
use std::test::Fail;

/// The message of this number.
fn join(number: u32) -> Sent {
    Sent {
        number: number as u64,
        stamp: Stamp(number as u64),
        from: Node::Client(0),
        to: Node::Target(0),
        message: Message::Join {
            who: Who {
                client: 0,
                life: number,
            },
            boot: 1,
        },
    }
}

#[test]
fn messages_are_posted_and_spent(rt: HostRuntime) -> Result<(), Fail> {
    let mut links = Links::new(rt.alloc());
    assert_eq!(rt; links.post(join(1)), Ok(1));
    assert_eq!(rt; links.least_unspent(), Some(1));
    links.spend(1);
    assert_eq!(rt; links.least_unspent(), None);
    assert!(rt; links.at(1).is_some_and(|sent| *sent == join(1)));
    assert!(rt; links.at(2).is_none());
    Ok(())
}
