//! A core image without the words that are 0.

use image_files::{compressed, is_image};
use word36::{Image, Word};

/// The JRST to 140.
const JRST: (u32, u32) = (0o254000, 0o140);

#[test]
fn words_of_zero_are_left_out(rt: HostRuntime) {
    let end = Word::join(JRST.0, JRST.1);
    let words = vec![in rt.alloc(); (0o140, end), (0o141, Word::new(0)), (0o143, end)].expect(
        &rt,
        "no memory",
    );
    let image = Image {
        words,
        start: 0o140,
    };
    assert!(rt; is_image(&image));
    let kept = compressed(rt.alloc(), &image).expect(&rt, "no memory");
    assert!(rt; kept.words.as_slice() == &[(0o140, end), (0o143, end)][..]);
    let falling = vec![in rt.alloc(); (0o140, end), (0o140, end)].expect(&rt, "no memory");
    assert!(rt;
        !is_image(&Image {
            words: falling,
            start: 0o140
        })
    );
}
