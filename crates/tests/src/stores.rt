// A table at each of its limits.
use crate::acts::{Act, on_a_table};
use file_system::{Kind, Part};

#[test]
fn longest_path(rt: HostRuntime) {
    let mut path = [b'a'; 1025];
    path[0] = b'/';
    on_a_table(
        &rt,
        1,
        1025,
        &[
            Act::Directory(&path, Err(12)),
            Act::Directory(&path[..1024], Ok(())),
        ],
    );
}

#[test]
fn longest_content(rt: HostRuntime) {
    let content = [0u8; 65536];
    on_a_table(
        &rt,
        1,
        8,
        &[
            Act::File(b"/f", &content, Err(12)),
            Act::File(b"/f", &content[..65535], Err(15)),
        ],
    );
}

#[test]
fn first_check_that_fails(rt: HostRuntime) {
    on_a_table(
        &rt,
        4,
        64,
        &[
            Act::File(b"/f", b"x", Ok(())),
            Act::Directory(b"/f/", Err(12)),
            Act::Directory(b"/", Err(13)),
            Act::File(b"/d/f", b"", Err(13)),
            Act::File(b"/f/f", b"", Err(13)),
            Act::Directory(b"/f", Err(14)),
        ],
    );
}

#[test]
fn full_in_entries(rt: HostRuntime) {
    on_a_table(
        &rt,
        2,
        64,
        &[
            Act::Directory(b"/d", Ok(())),
            Act::Directory(b"/d/e", Ok(())),
            Act::Directory(b"/g", Err(15)),
            Act::Kind(b"/g", Kind::Nothing),
        ],
    );
}

#[test]
fn full_in_bytes(rt: HostRuntime) {
    on_a_table(
        &rt,
        4,
        8,
        &[
            Act::Directory(b"/d", Ok(())),
            Act::File(b"/d/f", b"abc", Err(15)),
            Act::File(b"/d/f", b"ab", Ok(())),
            Act::File(b"/d/f", b"", Err(14)),
        ],
    );
}

#[test]
fn parts_of_a_file(rt: HostRuntime) {
    let part = |count| Some(Part { count, length: 6 });
    on_a_table(
        &rt,
        1,
        8,
        &[
            Act::File(b"/f", b"abcdef", Ok(())),
            Act::Read(b"/f", 1, part(4), b"bcde"),
            Act::Read(b"/f", 4, part(2), b"ef.."),
            Act::Read(b"/f", 6, part(0), b"...."),
            Act::Read(b"/f", 9, part(0), b"...."),
        ],
    );
}

#[test]
fn kinds(rt: HostRuntime) {
    on_a_table(
        &rt,
        2,
        8,
        &[
            Act::Directory(b"/d", Ok(())),
            Act::File(b"/d/f", b"", Ok(())),
            Act::Kind(b"/", Kind::Directory),
            Act::Kind(b"/d", Kind::Directory),
            Act::Kind(b"/d/f", Kind::File),
            Act::Kind(b"/d/", Kind::Nothing),
            Act::Read(b"/d", 0, None, b"...."),
        ],
    );
}

#[test]
fn first_check_of_a_removal_that_fails(rt: HostRuntime) {
    let mut path = [b'a'; 1025];
    path[0] = b'/';
    on_a_table(
        &rt,
        4,
        64,
        &[
            Act::File(b"/f", b"x", Ok(())),
            Act::Directory(b"/d", Ok(())),
            Act::File(b"/d/f", b"", Ok(())),
            Act::Remove(&path, Err(12)),
            Act::Remove(&path[..1024], Err(14)),
            Act::Remove(b"/f/", Err(12)),
            Act::Remove(b"/", Err(13)),
            Act::Remove(b"/f/f", Err(13)),
            Act::Remove(b"/e/f", Err(13)),
            Act::Remove(b"/e", Err(14)),
            Act::Remove(b"/d", Err(14)),
            Act::Remove(b"/d/f", Ok(())),
            Act::Remove(b"/d", Ok(())),
            Act::Remove(b"/d", Err(14)),
        ],
    );
}

// In the order of paths `/a-b` stands between `/a` and `/a/x`.
#[test]
fn a_directory_with_something_in_it_stays(rt: HostRuntime) {
    on_a_table(
        &rt,
        3,
        16,
        &[
            Act::Directory(b"/a", Ok(())),
            Act::File(b"/a-b", b"yz", Ok(())),
            Act::File(b"/a/x", b"", Ok(())),
            Act::Remove(b"/a", Err(14)),
            Act::Kind(b"/a/x", Kind::File),
            Act::Remove(b"/a/x", Ok(())),
            Act::Remove(b"/a", Ok(())),
            Act::Kind(b"/a", Kind::Nothing),
            Act::Read(
                b"/a-b",
                0,
                Some(Part {
                    count: 2,
                    length: 2,
                }),
                b"yz..",
            ),
        ],
    );
}

#[test]
fn just_the_space_of_what_is_removed_is_given_back(rt: HostRuntime) {
    let part = |count| Some(Part {
        count,
        length: count,
    });
    on_a_table(
        &rt,
        2,
        8,
        &[
            Act::File(b"/f", b"ab", Ok(())),
            Act::File(b"/g", b"cd", Ok(())),
            Act::File(b"/h", b"", Err(15)),
            Act::Remove(b"/f", Ok(())),
            Act::Read(b"/g", 0, part(2), b"cd.."),
            Act::File(b"/h", b"efg", Err(15)),
            Act::File(b"/h", b"ef", Ok(())),
            Act::Read(b"/g", 0, part(2), b"cd.."),
            Act::Read(b"/h", 0, part(2), b"ef.."),
            Act::Directory(b"/i", Err(15)),
        ],
    );
}
