//! `page_play_near`: what each near miss does in a play.

use crate::tests::{NO_MARK, numbers};
use crate::{Asked, Mark, NearPlayed, Telling, page_play_near};

const NOTHING_TOLD: Telling = numbers!(Telling: word 99, number 99);

// What is returned before anything is played.
const NOTHING_PLAYED: NearPlayed = numbers!(NearPlayed:
    outcome 9, number 9, place 9, shape_fault 9, count 9, told 9, taken 9, all_letters 9, modulus 9);

// A ring with one cell of two digits.
const ASKED: Asked = numbers!(Asked:
    capacity 1, modulus 3, width 2, batch 1, take_batch 1, takes 3, closes 0, letters 1_000_000);

// The play by a near miss of the script with these items and this schedule, in room for two marks and five tellings; the items taken in this
// room.
fn play_in(
    miss: u64,
    asked: &Asked,
    items: &[u64],
    schedule: &str,
    oracle: &str,
    taken: &mut [u64],
) -> (NearPlayed, [[u64; 2]; 5], [Mark; 2]) {
    let mut played = NOTHING_PLAYED;
    let mut marks = [NO_MARK; 2];
    let mut tellings = [NOTHING_TOLD; 5];
    page_play_near(
        miss,
        asked,
        items,
        schedule.as_bytes(),
        oracle.as_bytes(),
        &mut marks,
        &mut tellings,
        taken,
        &mut played,
    );
    let [a, b, c, d, e] = tellings;
    (
        played,
        [
            [a.word, a.number],
            [b.word, b.number],
            [c.word, c.number],
            [d.word, d.number],
            [e.word, e.number],
        ],
        marks,
    )
}

// The same, without the items taken.
fn play(
    miss: u64,
    asked: &Asked,
    items: &[u64],
    schedule: &str,
    oracle: &str,
) -> (NearPlayed, [[u64; 2]; 5], [Mark; 2]) {
    play_in(miss, asked, items, schedule, oracle, &mut [])
}

// Counts wrap at 4, not at 5. Two items are put and read, and of the count write of their take the clearing of r0 is open. Two more are
// put, and the third put sees r0 as 1, an old count: the ring looks empty, and it writes over the cell of the third item. C takes what it
// finds there.
#[test]
fn by_takes_of_several_an_item_is_taken_that_was_not_put(rt: HostRuntime) {
    let two = numbers!(Asked: capacity 2, modulus 5, width 3, take_batch 2, takes 4; ASKED);
    let mut taken = [9; 5];
    let (played, told, _) = play_in(3, &two, &[1, 2, 3, 5, 4], "P24C21P36C17", "001", &mut taken);
    assert_eq!(rt; told, [[0, 0], [3, 1], [0, 1], [3, 1], [2, 2]]);
    assert_eq!(rt; [played.told, played.taken, played.modulus], [13, 4, 4]);
    assert_eq!(rt; taken, [1, 2, 0, 5, 9]);
    let mut one = [9];
    let (played, _, _) = play_in(3, &two, &[1, 2, 3, 5, 4], "P24C21P36C17", "001", &mut one);
    assert_eq!(rt; (played.taken, one), (4, [1]));
}

#[test]
fn by_a_modulus_one_too_small_an_item_is_taken_twice(rt: HostRuntime) {
    let mut taken = [9; 3];
    let (played, told, marks) = play_in(3, &ASKED, &[1, 2, 3], "P9C20", "01", &mut taken);
    assert_eq!(rt; (played.taken, taken), (2, [1, 1, 9]));
    assert_eq!(rt; told, [[0, 0], [2, 1], [9, 1], [2, 1], [9, 1]]);
    assert_eq!(rt;
        [played.outcome, played.told, played.all_letters],
        [0, 5, 29]
    );
    assert_eq!(rt; [played.count, played.modulus], [29, 2]);
    assert_eq!(rt; [marks[0].side, marks[0].row, marks[0].act], [0, 1, 0]);
}

#[test]
fn by_a_count_before_its_cell_an_item_is_taken_that_was_not_put(rt: HostRuntime) {
    let narrow = Asked { width: 1, ..ASKED };
    let mut taken = [9];
    let (played, told, _) = play_in(1, &narrow, &[1], "P5C10", "", &mut taken);
    assert_eq!(rt; told, [[0, 0], [2, 1], [9, 1], [99, 99], [99, 99]]);
    assert_eq!(rt; (played.taken, taken), (1, [0]));
    assert_eq!(rt; [played.outcome, played.told, played.modulus], [0, 3, 3]);
}

#[test]
fn without_a_second_scan_an_item_is_lost(rt: HostRuntime) {
    let closing = numbers!(Asked: width 1, takes 2, closes 1; ASKED);
    let (played, told, _) = play(2, &closing, &[1], "C2P9C2", "1");
    assert_eq!(rt; told, [[2, 1], [0, 0], [3, 1], [1, 0], [14, 0]]);
    assert_eq!(rt; (played.outcome, played.told), (0, 5));
    let (played, told, _) = play(2, &closing, &[1], "C2P10C2", "");
    assert_eq!(rt; told, [[2, 1], [0, 0], [3, 1], [1, 0], [8, 0]]);
    assert_eq!(rt; (played.outcome, played.told), (0, 6));
}

// The producer stops between two writes of its count: a scan finds an old count, and the ring empty with items inside.
#[test]
fn where_bits_are_cleared_first_a_count_comes_back(rt: HostRuntime) {
    let two = numbers!(Asked: capacity 2, modulus 4, takes 5; ASKED);
    let items = [1, 2, 3, 1, 2];
    let schedule = "P10C12P12C14P14C16P27C10";
    let (played, told, _) = play(4, &two, &items, schedule, "");
    assert_eq!(rt; told, [[0, 0], [3, 1], [2, 1], [9, 1], [0, 1]]);
    assert_eq!(rt; [played.outcome, played.told, played.modulus], [0, 17, 4]);
}

#[test]
fn the_full_ring_is_told(rt: HostRuntime) {
    let (played, told, _) = play(5, &ASKED, &[1, 2], "P200", "");
    assert_eq!(rt; told, [[0, 0], [3, 1], [0, 1], [5, 0], [0, 1]]);
    assert_eq!(rt; (played.outcome, played.count), (0, 200));
}

#[test]
fn the_first_letters_are_played(rt: HostRuntime) {
    let none = numbers!(Asked: letters 0; ASKED);
    let (played, told, _) = play(3, &none, &[1, 2, 3], "P9C20", "01");
    assert_eq!(rt; [played.count, played.told, played.all_letters], [0, 0, 29]);
    assert_eq!(rt; told, [[99, 99]; 5]);
    let ten = numbers!(Asked: letters 10; ASKED);
    let (played, told, _) = play(3, &ten, &[1, 2, 3], "P9C20", "01");
    assert_eq!(rt;
        [played.count, played.told, played.all_letters],
        [10, 2, 29]
    );
    assert_eq!(rt; told, [[0, 0], [2, 1], [99, 99], [99, 99], [99, 99]]);
}

#[test]
fn a_play_fills_the_room_for_events(rt: HostRuntime) {
    let most = numbers!(Asked: letters 10_000; ASKED);
    let (played, _, _) = play(3, &most, &[1, 2], "P10001", "");
    assert_eq!(rt; [played.outcome, played.count], [0, 10_000]);
    let more = numbers!(Asked: letters 10_001; most);
    let (played, told, _) = play(3, &more, &[1, 2], "P10001", "");
    assert_eq!(rt; [played.outcome, played.number, played.count], [2, 12, 0]);
    assert_eq!(rt;
        [played.told, played.all_letters, played.modulus],
        [0, 0, 0]
    );
    assert_eq!(rt; told, [[99, 99]; 5]);
}

#[test]
fn what_is_no_script_is_refused_as_by_the_ring(rt: HostRuntime) {
    let (played, _, _) = play(1, &ASKED, &[1, 8], "PC", "");
    assert_eq!(rt; [played.outcome, played.number, played.place], [2, 8, 1]);
    let (played, _, _) = play(1, &ASKED, &[1], "PCx", "");
    assert_eq!(rt; [played.outcome, played.number, played.place], [2, 9, 2]);
    let flat = Asked { width: 0, ..ASKED };
    let (played, _, _) = play(1, &flat, &[1], "PC", "");
    assert_eq!(rt;
        [played.outcome, played.number, played.shape_fault],
        [2, 6, 3]
    );
}

#[test]
fn there_is_no_near_miss_of_another_number(rt: HostRuntime) {
    for miss in [0, 6, u64::MAX] {
        let (played, told, _) = play(miss, &ASKED, &[1], "PC", "");
        assert_eq!(rt; [played.outcome, played.count, played.modulus], [3, 0, 0]);
        assert_eq!(rt; told, [[99, 99]; 5]);
    }
}
