//! Ids of each length, from 1 to 32 hexadecimal digits.
use iox2_ids::identifiers::{UniqueListenerId, UniqueNodeId};
use test_support::printing::is_printed_as;

/// A number of 32 digits, and them.
const WHOLE: (u128, &str) = (
    0x123456789abcdef0_fedcba9876543210,
    "123456789abcdef0fedcba9876543210",
);

/// The 32 bits of a number from this bit on.
fn part(number: u128, from: u32) -> u32 {
    (number.wrapping_shr(from) % (1 << 32)) as u32
}

#[test]
fn ids_of_each_length_are_printed(rt: HostRuntime) {
    for digits in 1..=32 {
        let number = WHOLE.0 >> (128 - 4 * digits as u32);
        let process = part(number, 96);
        let seconds = part(number, 64);
        let nanoseconds = part(number, 32);
        let counter = part(number, 0);
        let text = WHOLE.1.get(..digits).unwrap_or("");
        let node = UniqueNodeId::new(process, seconds, nanoseconds, counter);
        assert_eq!(rt;
            [
                is_printed_as(
                    &UniqueListenerId::new(process, seconds, nanoseconds, counter),
                    text,
                ),
                node.is_some_and(|node| is_printed_as(&node, text)),
            ],
            [true; 2]
        );
    }
}
