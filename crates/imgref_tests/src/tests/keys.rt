//! Images as keys of a set: a pixel that is written makes another key.

use imgref::{Img, ImgVec};
use imgref_fixtures::{hash_of, hash_of_rows};
use std::alloc::{AllocError, Global};
use std::collections::HashSet;
use std::hash::{DefaultHasher, Hash, Hasher};
use std::test::Fail;

// Which of four keys a set takes, one after the other.
fn taken<K: Eq + Hash + Drop>(alloc: Global, keys: [K; 4]) -> Result<[bool; 4], AllocError> {
    let mut set = HashSet::new(alloc);
    let [first, second, third, fourth] = keys;
    let is_first = set.insert(first)?;
    let is_second = set.insert(second)?;
    let is_third = set.insert(third)?;
    Ok([is_first, is_second, is_third, set.insert(fourth)?])
}

// Two by two at stride 2; the same at stride 3, where a pixel is written; four in a row; and again the first one's pixels,
// at stride 3.
#[test]
fn a_written_image_is_another_key(rt: HostRuntime) -> Result<(), Fail> {
    let mut packed: ImgVec<u8> = Img::new([0u8, 1, 2, 3].to_vec(rt.alloc())?, 2, 2);
    let mut short: ImgVec<u8> = Img::new_stride([0u8, 1, 255, 2, 3].to_vec(rt.alloc())?, 2, 2, 3);
    let mut line: ImgVec<u8> = Img::new([0u8, 1, 2, 3].to_vec(rt.alloc())?, 4, 1);
    let mut padded: ImgVec<u8> = Img::new_stride(
        [0u8, 1, 255, 2, 3, 255].to_vec(rt.alloc())?,
        2,
        2,
        3,
    );
    let alike = [
        packed.as_ref(),
        short.as_ref(),
        line.as_ref(),
        padded.as_ref(),
    ];
    assert!(rt; taken(rt.alloc(), alike)? == [true, false, true, false]);
    short[(0usize, 0usize)] = 100;
    let due = [true, true, true, false];
    let views = [
        packed.as_ref(),
        short.as_ref(),
        line.as_ref(),
        padded.as_ref(),
    ];
    assert!(rt; taken(rt.alloc(), views)? == due);
    assert!(rt; are_one_key(&mut packed, &mut padded));
    assert!(rt; packed.as_mut() != short.as_mut());
    assert!(rt; taken(rt.alloc(), [packed, short, line, padded])? == due);
    Ok(())
}

// Whether two images are equal as lent ones, and have one hash.
fn are_one_key(first: &mut ImgVec<u8>, second: &mut ImgVec<u8>) -> bool {
    let lent = hash_of(&first.as_mut());
    lent == hash_of(&second.as_mut())
        && lent == hash_of(&first.as_ref())
        && first.as_mut() == second.as_mut()
}

// Two by two, packed and with padding: one hash of their rows, which is that of the sizes and of each row by one write. A
// pixel more or another size gives another hash.
#[test]
fn equal_bytes_have_one_hash_of_rows(rt: HostRuntime) -> Result<(), Fail> {
    let mut padded: ImgVec<u8> = Img::new_stride([0u8, 1, 255, 2, 3].to_vec(rt.alloc())?, 2, 2, 3);
    let packed: ImgVec<u8> = Img::new([0u8, 1, 2, 3].to_vec(rt.alloc())?, 2, 2);
    let line: ImgVec<u8> = Img::new([0u8, 1, 2, 3].to_vec(rt.alloc())?, 4, 1);
    let mut hasher = DefaultHasher::new();
    hasher.write_u32(2);
    hasher.write_u32(2);
    hasher.write(&[0, 1]);
    hasher.write(&[2, 3]);
    let due = hasher.finish();
    assert!(rt; hash_of_rows(&packed) == due);
    assert!(rt; hash_of_rows(&padded.as_mut()) == due);
    assert!(rt; hash_of_rows(&line) != due);
    padded[(1usize, 1usize)] = 4;
    assert!(rt; hash_of_rows(&padded) != due);
    Ok(())
}
