// Stores over words of the wider scripts, by requests and by calls.
use cells::Cell;
use history::{Link, Reply};
use listing::LinkRow;
use record::Tally;
use refusal::Refusal;
use requests::{GrowingRequest, Request, perform, perform_growing};
use script::{MorphemeClass, MorphemeSign, Script, WordTriple};
use std::alloc::{AllocError, Global};
use std::test::Fail;
use store::RelationTable;
use trie_list::TrieList;

const ONE: Tally = Tally { count: 1 };

// A table of four numbers and 300 link cells over a list that is empty as yet.
fn store<S: Script>(heap: Global) -> Result<(TrieList, RelationTable), AllocError> {
    let list = TrieList::new(vec![in heap; Cell::FREE; 600]?, vec![in heap; 0u32; 4]?);
    let cells = vec![in heap; Cell::FREE; 300]?;
    let index = vec![in heap; 0u32; 4]?;
    let table = RelationTable::new::<S, TrieList, Tally>(&list, &[ONE; 4], cells, index);
    Ok((list, table))
}

#[test]
fn wide_words_by_requests(rt: HostRuntime) -> Result<(), Fail> {
    let (mut list, mut table) = store::<u16>(rt.alloc())?;
    let mut records = [ONE; 4];
    let mut rows = [LinkRow::default(); 1];
    let x: &[u16] = &[0x96e8, 0x5408];
    let y: &[u16] = &[0x7fbd];
    let words = WordTriple { x, relation: 3, y };
    let link = Link {
        x: 1,
        y: 2,
        number: 1,
    };
    let add = GrowingRequest::Add { words, record: ONE };
    let added = perform_growing(&mut table, &mut list, &mut records, &mut rows, add);
    assert_eq!(rt; added, Ok(Reply::Linked(link)));
    let find = Request::Find { words };
    let found = perform(&mut table, &list, &mut records, &mut rows, find);
    assert_eq!(rt; found, Ok(Reply::Found(Some(link))));
    let ask = Request::List { x, relation: 0 };
    let listed = perform(&mut table, &list, &mut records, &mut rows, ask);
    assert_eq!(rt; listed, Ok(Reply::Listed(1)));
    assert_eq!(rt; rows[0].link, 1);
    Ok(())
}

#[test]
fn morphemes(rt: HostRuntime) -> Result<(), Fail> {
    let (mut list, mut table) = store::<MorphemeSign>(rt.alloc())?;
    let mut records = [ONE; 4];
    let form = 258;
    let noun: &[MorphemeSign] = &[MorphemeSign {
        class: MorphemeClass::Noun,
        form,
    }];
    let verb: &[MorphemeSign] = &[MorphemeSign {
        class: MorphemeClass::Verb,
        form,
    }];
    let words = WordTriple {
        x: noun,
        relation: 7,
        y: verb,
    };
    let turned = WordTriple {
        x: verb,
        relation: 7,
        y: noun,
    };
    let link = Link {
        x: 1,
        y: 2,
        number: 1,
    };
    assert_eq!(rt; table.add(&mut list, &mut records, words, ONE), Ok(link));
    assert_eq!(rt; table.delete(&list, turned), Err(Refusal::TripleAbsent));
    assert_eq!(rt; table.delete(&list, words), Ok(1));
    Ok(())
}
