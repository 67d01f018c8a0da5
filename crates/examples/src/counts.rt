// Counts of piles: four comment layers fit 64 states, five do not.
use grammar::{Grammar, Words};
use layers::{Comment, Region};

#[test]
fn counts_double_until_they_no_longer_fit(rt: HostRuntime) {
    let two = Comment {
        below: Comment { below: Words },
    };
    let four = Comment {
        below: Comment { below: two },
    };
    let five = Comment { below: four };
    assert_eq!(rt; two.count(), 12);
    assert_eq!(rt; four.count(), 48);
    assert_eq!(rt; five.count(), 0);
    let within = Region {
        below: Words,
        inner: five,
    };
    assert_eq!(rt;
        within.count(),
        0,
        "an unusable grammar inside makes the layer unusable"
    );
}
