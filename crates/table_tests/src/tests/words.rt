//! The numbers of some words, as the table of bits has them.
use life_rules::{BlockState, BlockWord, ControlWord};
use table_words::{Layout, block_number, control_number, read_control, stamp};

#[test]
fn a_report_is_a_subtraction_of_one(rt: HostRuntime) {
    let two = control_number(7, ControlWord::Busy(2));
    assert!(rt; read_control(two - 1) == ControlWord::Busy(1));
    assert!(rt; stamp(two - 1) == 7);
}

#[test]
fn a_new_table_is_all_zeros(rt: HostRuntime) {
    let free = BlockWord {
        generation: 0,
        state: BlockState::Free,
    };
    assert!(rt; block_number(free) == 0);
    assert!(rt; control_number(0, ControlWord::Idle) == 0);
}

#[test]
fn the_largest_table_has_so_many_words(rt: HostRuntime) {
    let layout = Layout {
        blocks: 256,
        nodes: 1025,
    };
    assert!(rt; layout.words() == 32 + 256 * (4 * 1025 + 16));
    assert!(rt; layout.source(255, 1024) == layout.words() - 2);
}
