use ordered_table::{Entry, Queue, SparseTable, Table};
use std::test::Fail;
use unix_names::Pid;

fn pids<T>(table: &Table<T>, at: usize) -> Option<u32> {
    table.as_slice().get(at).map(|entry| entry.pid.0)
}

#[test]
fn a_table_keeps_its_ids_in_order(rt: HostRuntime) -> Result<(), Fail> {
    let mut table = Table::new(rt.alloc());
    assert!(rt; table.put(Pid(7), 'b').is_ok());
    assert!(rt; table.put(Pid(2), 'a').is_ok());
    assert!(rt; table.put(Pid(1000002), 'c').is_ok());
    assert_eq!(rt; pids(&table, 0), Some(2));
    assert_eq!(rt; pids(&table, 1), Some(7));
    assert_eq!(rt; pids(&table, 2), Some(1000002));
    assert_eq!(rt; table.put(Pid(7), 'd'), Ok(Some('b')));
    assert_eq!(rt; table.get(Pid(7)).copied(), Some('d'));
    assert_eq!(rt; table.get(Pid(3)).copied(), None);
    assert_eq!(rt; table.greatest(), Some(Pid(1000002)));
    assert_eq!(rt; table.remove(Pid(7)), Some('d'));
    assert_eq!(rt; table.len(), 2);
    let first = table.pop_first();
    assert_eq!(rt; first.map(|entry| entry.value), Some('a'));
    Ok(())
}

#[test]
fn a_value_leaves_a_sparse_table_and_comes_back(rt: HostRuntime) -> Result<(), Fail> {
    let mut table = SparseTable::new(rt.alloc());
    assert_eq!(rt; table.put(Pid(7), 'b'), Ok(None));
    assert_eq!(rt; table.put(Pid(2), 'a'), Ok(None));
    assert_eq!(rt; table.remove(Pid(7)), Some('b'));
    assert_eq!(rt; table.get(Pid(7)).copied(), None);
    assert_eq!(rt; table.put(Pid(7), 'c'), Ok(None));
    assert_eq!(rt; table.get(Pid(7)).copied(), Some('c'));
    assert_eq!(rt; table.remove(Pid(2)), Some('a'));
    assert_eq!(rt; table.remove(Pid(2)), None);
    Ok(())
}

#[test]
fn the_first_leaves_a_queue_first(rt: HostRuntime) -> Result<(), Fail> {
    let mut queue = Queue::new(rt.alloc());
    assert_eq!(rt; queue.push(1u8), Ok(()));
    assert_eq!(rt; queue.push(2u8), Ok(()));
    assert_eq!(rt; queue.pop(), Some(1));
    assert_eq!(rt; queue.pop(), Some(2));
    assert_eq!(rt; queue.pop(), None);
    Ok(())
}

#[test]
fn an_item_leaves_the_middle_of_a_queue(rt: HostRuntime) -> Result<(), Fail> {
    let mut queue = Queue::new(rt.alloc());
    for item in 1..4u8 {
        assert_eq!(rt; queue.push(item), Ok(()));
    }
    assert_eq!(rt; queue.get(1).copied(), Some(2));
    assert_eq!(rt; queue.remove(1), Some(2));
    assert_eq!(rt; queue.remove(2), None);
    assert_eq!(rt; queue.pop(), Some(1));
    assert_eq!(rt; queue.pop(), Some(3));
    Ok(())
}
