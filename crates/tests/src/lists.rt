// Lists at their ends.
use list::{Full, List, NotInserted, is_part};

// Calls go by functions of their own, without a contract: the tests need no facts of the lists.
fn append(list: &mut List<u8>, more: &[u8]) -> Result<(), Full> {
    list.append(more)
}

fn insert(list: &mut List<u8>, at: usize, x: u8) -> Result<(), NotInserted> {
    list.insert(at, x)
}

fn holds(list: &List<u8>, bytes: &[u8]) -> bool {
    list.as_slice() == bytes
}

#[test]
fn full_list_takes_no_more(rt: HostRuntime) {
    let mut memory = [0u8; 2];
    let mut list = List::new(&mut memory);
    assert!(rt; list.push(1).is_ok() && list.push(2).is_ok());
    assert_eq!(rt; list.push(3), Err(Full));
    assert_eq!(rt; list.room(), 0);
    assert!(rt; holds(&list, &[1, 2]));
}

#[test]
fn appends_all_or_nothing(rt: HostRuntime) {
    let mut memory = [0u8; 3];
    let mut list = List::new(&mut memory);
    assert!(rt; append(&mut list, &[1, 2]).is_ok());
    assert!(rt; append(&mut list, &[3, 4]) == Err(Full));
    assert!(rt; holds(&list, &[1, 2]));
    assert!(rt; append(&mut list, &[3]).is_ok());
    assert!(rt; list.get(2) == Some(3));
    assert!(rt; list.get(3).is_none());
}

#[test]
fn inserts_where_there_is_a_place(rt: HostRuntime) {
    let mut memory = [0u8; 3];
    let mut list = List::new(&mut memory);
    assert!(rt; insert(&mut list, 1, 7) == Err(NotInserted::PastTheEnd));
    assert!(rt; append(&mut list, &[1, 3]).is_ok());
    assert!(rt; insert(&mut list, 1, 2).is_ok());
    assert!(rt; holds(&list, &[1, 2, 3]));
    assert!(rt; insert(&mut list, 0, 0) == Err(NotInserted::Full));
}

// Calls of `remove` and `replace` by functions without a contract, as above.
fn remove(list: &mut List<u8>, at: usize, count: usize) {
    list.remove(at, count)
}

fn replace(list: &mut List<u8>, at: usize, x: u8) {
    list.replace(at, x)
}

#[test]
fn takes_out_what_stands_there(rt: HostRuntime) {
    let mut memory = [1u8, 2, 3, 4, 5];
    let mut list = List::new(&mut memory);
    assert!(rt; append(&mut list, &[1, 2, 3, 4]).is_ok());
    remove(&mut list, 4, 1);
    assert!(rt; holds(&list, &[1, 2, 3, 4]));
    remove(&mut list, 1, 2);
    assert!(rt; holds(&list, &[1, 4]));
    replace(&mut list, 1, 7);
    replace(&mut list, 2, 9);
    assert!(rt; holds(&list, &[1, 7]));
    remove(&mut list, 1, 9);
    assert!(rt; holds(&list, &[1]));
    assert!(rt; list.room() == 4);
}

#[test]
fn holds_fewer_from_then_on(rt: HostRuntime) {
    let mut memory = [0u8; 3];
    let mut list = List::new(&mut memory);
    assert_eq!(rt; list.append(&[1, 2, 3]), Ok(()));
    list.truncate(4);
    assert_eq!(rt; list.len(), 3);
    list.truncate(1);
    assert!(rt; list.as_slice() == [1u8].as_slice());
}

#[test]
fn parts(rt: HostRuntime) {
    assert!(rt; is_part(b"abcd", 1, 2, b"bc"));
    assert!(rt; !is_part(b"abcd", 1, 2, b"bcd"));
    assert!(rt; is_part(b"abcd", 3, 2, b"d"));
    assert!(rt; is_part(b"abcd", 5, 2, b""));
}
