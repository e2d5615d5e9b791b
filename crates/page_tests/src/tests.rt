//! The sizes of byte stores, groups with unlawful marks, two words of one slot, and a list played through two banks.
use crate::examples::{put_in_bytes, through_to_bytes};
use page::{Access, Bank, Bytes, Outside, PageStore, Reply, Table, play_and_drain};
use word::{Mark, Word};

// A word of a value and a mark's number, blank for a number that no mark has.
fn word(value: u32, number: u32) -> Word {
    let mark = Mark::try_from(number).unwrap_or(Mark::blank());
    Word { value, mark }
}

// The number of words that bytes spell.
fn size_of(bytes: &mut [u8]) -> u16 {
    let store = Bytes::new(bytes);
    store.size()
}

#[test]
fn a_size_counts_whole_groups_up_to_4096(rt: HostRuntime) {
    assert_eq!(rt; size_of(&mut [0; 0]), 0);
    assert_eq!(rt; size_of(&mut [0; 7]), 0);
    assert_eq!(rt; size_of(&mut [0; 8]), 1);
    assert_eq!(rt; size_of(&mut [0; 15]), 1);
    assert_eq!(rt; size_of(&mut [0; 16]), 2);
    assert_eq!(rt; size_of(&mut [0; 32768]), 4096);
    assert_eq!(rt; size_of(&mut [0; 32776]), 4096);
}

#[test]
fn an_unlawful_mark_reads_as_blank(rt: HostRuntime) {
    let blank = word(9, 0);
    assert_eq!(rt; Word::from([0, 0, 0, 9, 0, 16, 0, 0]), blank);
    assert_eq!(rt; Word::from([0, 0, 0, 9, 0, 127, 66, 65]), blank);
    assert_eq!(rt;
        Word::from([0, 0, 0, 9, 0, 127, 66, 64]),
        word(9, 8_340_032)
    );
}

#[test]
fn a_write_changes_its_group_alone(rt: HostRuntime) {
    let mut bytes = [255; 10];
    put_in_bytes(&mut bytes, 0, word(258, 1_048_577));
    put_in_bytes(&mut bytes, 1, word(7, 0));
    assert_eq!(rt; bytes, [0, 0, 1, 2, 0, 16, 0, 1, 255, 255]);
}

#[test]
fn a_word_goes_through_two_banks(rt: HostRuntime) {
    let mut bytes = [0; 16];
    let sent = word(16_909_060, 8_340_032);
    assert_eq!(rt; through_to_bytes(&mut bytes, 1, sent), Ok(sent));
    assert_eq!(rt; bytes, [0, 0, 0, 0, 0, 0, 0, 0, 1, 2, 3, 4, 0, 127, 66, 64]);
    assert_eq!(rt; through_to_bytes(&mut bytes, 2, sent), Err(Outside));
}

#[test]
fn words_5_and_133_share_a_slot(rt: HostRuntime) {
    let five = word(50, 1);
    let other = word(60, 2);
    let mut bank = Bank::new(Table::new());
    assert_eq!(rt; bank.write(5, five), Ok(()));
    assert_eq!(rt; bank.below().cells()[5], word(0, 0));
    assert_eq!(rt; bank.write(133, other), Ok(()));
    assert_eq!(rt; bank.below().cells()[5], five);
    assert_eq!(rt; bank.below().cells()[133], word(0, 0));
    assert_eq!(rt; bank.read(133), Ok(other));
    bank.drain();
    assert_eq!(rt; bank.below().cells()[133], other);
}

#[test]
fn a_list_is_played_on_a_bank_over_a_bank(rt: HostRuntime) {
    let sent = word(70, 3);
    let accesses = [
        Access::Read(5),
        Access::Write(5, sent),
        Access::Read(5),
        Access::Write(4096, sent),
    ];
    let mut replies = [Err(Outside); 5];
    let mut bank = Bank::new(Bank::new(Table::new()));
    assert_eq!(rt; play_and_drain(&mut bank, &accesses, &mut replies), 4);
    assert_eq!(rt;
        replies,
        [
            Ok(Reply::Gave(word(0, 0))),
            Ok(Reply::Written),
            Ok(Reply::Gave(sent)),
            Err(Outside),
            Err(Outside),
        ]
    );
    let table = bank.into_below().into_below();
    assert_eq!(rt; table.cells()[5], sent);
}
