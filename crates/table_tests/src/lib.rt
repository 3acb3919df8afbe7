#![tactic(auto)]

// Tests of the reader of tables: each refusal, and each bound from both sides.
#[cfg(test)]
mod tests {
    use source::table::Move;
    use std::alloc::{AllocError, Global};
    use std::test::Fail;
    use table::Summary;

    // Texts with the number, the line and the field of their refusal.
    static REFUSED: [(&str, u8, usize, u8); 72] = [
        // A line end is missing, or the line is of another kind or shape.
        ("", 1, 1, 0),
        ("\n", 1, 1, 0),
        ("table,3,1", 1, 1, 0),
        ("table,3,1\nmove,0,?,0,1", 1, 2, 0),
        ("table,3,1\n\0", 1, 2, 0),
        ("table\n", 1, 1, 0),
        ("table,3\n", 1, 1, 0),
        ("table,3,1,\n", 1, 1, 0),
        ("table,3,1,0\n", 1, 1, 0),
        ("Table,3,1\n", 1, 1, 0),
        ("tables,3,1\n", 1, 1, 0),
        ("tabl,3,1\n", 1, 1, 0),
        (",3,1\n", 1, 1, 0),
        ("\u{feff}table,3,1\n", 1, 1, 0),
        ("move,0,?,0,1\n", 1, 1, 0),
        ("table,3,1\n\n", 1, 2, 0),
        ("table,3,1\n\nmove,0,?,0,1\n", 1, 2, 0),
        ("table,3,1\nmove,0,?,0,1\n\n", 1, 3, 0),
        ("table,3,1\ntable,3,1\n", 1, 2, 0),
        ("table,3,1\nmove,0,?,0,1\ntable,3,1\n", 1, 3, 0),
        ("table,3,1\nmov,0,?,0,1\n", 1, 2, 0),
        ("table,3,1\nmove,0,?,0\n", 1, 2, 0),
        ("table,3,1\nmove,0,?,0,1,\n", 1, 2, 0),
        // The number of states.
        ("table,,0\n", 2, 1, 2),
        ("table,0,0\n", 2, 1, 2),
        ("table,256,0\n", 2, 1, 2),
        ("table,257,0\n", 2, 1, 2),
        ("table,65537,0\n", 2, 1, 2),
        ("table,4294967297,0\n", 2, 1, 2),
        ("table,18446744073709551617,0\n", 2, 1, 2),
        ("table,340282366920938463463374607431768211457,0\n", 2, 1, 2),
        ("table,00,0\n", 2, 1, 2),
        ("table,03,0\n", 2, 1, 2),
        ("table,+1,0\n", 2, 1, 2),
        ("table,-1,0\n", 2, 1, 2),
        ("table, 3,0\n", 2, 1, 2),
        ("table,3\0,0\n", 2, 1, 2),
        ("table,\u{ff13},0\n", 2, 1, 2),
        ("table,\u{b3},0\n", 2, 1, 2),
        // The start.
        ("table,3,\n", 2, 1, 3),
        ("table,3,3\n", 2, 1, 3),
        ("table,255,255\n", 2, 1, 3),
        ("table,3,256\n", 2, 1, 3),
        ("table,3,00\n", 2, 1, 3),
        ("table,3,+1\n", 2, 1, 3),
        ("table,3,1\r\n", 2, 1, 3),
        ("table,3,1 \n", 2, 1, 3),
        ("table,3,\0\n", 2, 1, 3),
        // The fields of a move, from the left.
        ("table,3,1\nmove,,?,0,1\n", 2, 2, 2),
        ("table,3,1\nmove,3,?,0,1\n", 2, 2, 2),
        ("table,3,1\nmove,00,?,0,1\n", 2, 2, 2),
        ("table,3,1\nmove,0,,0,1\n", 3, 2, 3),
        ("table,3,1\nmove,0,??,0,1\n", 3, 2, 3),
        ("table,3,1\nmove,0,send,0,1\n", 3, 2, 3),
        ("table,3,1\nmove,0,\u{bf},0,1\n", 3, 2, 3),
        ("table,3,1\nmove,0,?,,1\n", 2, 2, 4),
        ("table,3,1\nmove,0,!,,1\n", 2, 2, 4),
        ("table,3,1\nmove,0,?,32,1\n", 2, 2, 4),
        ("table,3,1\nmove,0,!,32,1\n", 2, 2, 4),
        ("table,3,1\nmove,0,!,+1,1\n", 2, 2, 4),
        ("table,3,1\nmove,0,-,0,1\n", 3, 2, 4),
        ("table,3,1\nmove,0,-,x,1\n", 3, 2, 4),
        ("table,3,1\nmove,0,?,0,\n", 2, 2, 5),
        ("table,3,1\nmove,0,?,0,3\n", 2, 2, 5),
        ("table,3,1\nmove,0,-,,1\r\n", 2, 2, 5),
        ("table,3,1\nmove,0,?,0,1\nmove,0,?,0,256\n", 2, 3, 5),
        // Of two faults the first is told.
        ("table,0,0", 1, 1, 0),
        ("table,0,9\n", 2, 1, 2),
        ("table,3,1\nmove,9,x,99,9\n", 2, 2, 2),
        ("table,3,1\nmove,0,x,99,9\n", 3, 2, 3),
        ("table,3,1\nmove,0,-,0,9\n", 3, 2, 4),
        ("table,3,1\nmove,0,?,0,9\nmove", 2, 2, 5),
    ];

    // Texts with the states, the start and the number of moves of their table.
    static READ: [(&str, u8, u8, usize); 7] = [
        ("table,1,0\n", 1, 0, 0),
        ("table,255,254\n", 255, 254, 0),
        ("table,3,1\nmove,0,?,0,1\n", 3, 1, 1),
        ("table,3,1\nmove,2,!,31,2\nmove,2,?,31,0\n", 3, 1, 2),
        ("table,255,0\nmove,254,-,,254\n", 255, 0, 1),
        ("table,10,9\nmove,9,!,10,9\n", 10, 9, 1),
        (
            "table,3,1\nmove,0,-,,1\nmove,0,-,,1\nmove,0,-,,1\n",
            3,
            1,
            3,
        ),
    ];

    // A move that no text can give.
    const MARK: Move = Move {
        from: 255,
        label: 255,
        to: 255,
    };

    fn step(from: u8, label: u8, to: u8) -> Move {
        Move { from, label, to }
    }

    fn untouched(moves: &[Move]) -> bool {
        moves.iter().all(|step| *step == MARK)
    }

    // A text with moves of 13 bytes and moves of 12 after a first line of 10.
    fn long_text(heap: Global, named: usize, silent: usize) -> Result<Vec<u8>, AllocError> {
        let mut text = Vec::from_slice(heap, b"table,1,0\n")?;
        for _ in 0..named {
            text.extend_from_slice(b"move,0,?,0,0\n")?;
        }
        for _ in 0..silent {
            text.extend_from_slice(b"move,0,-,,0\n")?;
        }
        Ok(text)
    }

    // The number, the line and the field of a text's refusal; none where it is read.
    fn refusal(text: &[u8], moves: &mut [Move]) -> Option<(u8, usize, u8)> {
        let fault = table::check(text).store(moves).err()?;
        Some((fault.number(), fault.line(), fault.field()))
    }

    #[test]
    fn refuses_and_writes_nothing(rt: HostRuntime) {
        for (text, number, line, field) in REFUSED.iter() {
            let mut moves = [MARK; 4];
            assert_eq!(rt;
                refusal(text.as_bytes(), &mut moves),
                Some((*number, *line, *field)),
                "{}",
                text
            );
            assert!(rt; untouched(&moves), "{}", text);
        }
    }

    #[test]
    fn reads(rt: HostRuntime) {
        for (text, states, start, moves) in READ.iter() {
            let summary = Summary {
                states: *states,
                start: *start,
                moves: *moves,
            };
            assert_eq!(rt;
                table::check(text.as_bytes()).found(),
                Ok(summary),
                "{}",
                text
            );
        }
    }

    #[test]
    fn stores_the_moves_in_their_order(rt: HostRuntime) {
        let text =
            b"table,255,7\nmove,0,?,0,254\nmove,254,?,31,0\nmove,1,!,0,2\nmove,2,!,31,1\nmove,3,-,,3\nmove,3,-,,3\n";
        let mut moves = [MARK; 8];
        assert_eq!(rt; refusal(text, &mut moves), None);
        let stored = [
            step(0, 0, 254),
            step(254, 31, 0),
            step(1, 32, 2),
            step(2, 63, 1),
            step(3, 64, 3),
            step(3, 64, 3),
        ];
        assert_eq!(rt; &moves[0..6], stored.as_slice());
        assert!(rt; untouched(&moves[6..8]), "the places past the moves");
    }

    #[test]
    fn bytes_that_are_no_text_are_refused(rt: HostRuntime) {
        let mut moves = [MARK; 4];
        assert_eq!(rt; refusal(b"table,\xff,0\n", &mut moves), Some((2, 1, 2)));
        assert_eq!(rt; refusal(b"table,3,\xb1\n", &mut moves), Some((2, 1, 3)));
        assert_eq!(rt;
            refusal(b"table,3,1\nmove,0,\x80,0,0\n", &mut moves),
            Some((3, 2, 3))
        );
        assert_eq!(rt; refusal(b"\xfftable,3,1\n", &mut moves), Some((1, 1, 0)));
        assert!(rt; untouched(&moves));
    }

    #[test]
    fn a_text_has_at_most_40960_bytes(rt: HostRuntime) -> Result<(), Fail> {
        let heap = rt.alloc();
        let mut moves = vec![in heap; MARK; 4096]?;
        let full = long_text(heap, 6, 3406)?;
        assert_eq!(rt; full.len(), 40_960);
        assert_eq!(rt; refusal(full.as_slice(), moves.as_mut_slice()), None);
        let mut over = long_text(heap, 7, 3405)?;
        assert_eq!(rt; over.len(), 40_961);
        let mut marks = vec![in heap; MARK; 4096]?;
        assert_eq!(rt;
            refusal(over.as_slice(), marks.as_mut_slice()),
            Some((4, 0, 0))
        );
        over.extend_from_slice(b"mov")?;
        assert_eq!(rt;
            refusal(over.as_slice(), marks.as_mut_slice()),
            Some((4, 0, 0)),
            "too long, before its faults"
        );
        assert!(rt; untouched(marks.as_slice()));
        Ok(())
    }

    #[test]
    fn moves_past_the_room_are_refused(rt: HostRuntime) -> Result<(), Fail> {
        let heap = rt.alloc();
        let mut moves = vec![in heap; MARK; 1024]?;
        let mut over = long_text(heap, 1, 1024)?;
        assert_eq!(rt;
            refusal(over.as_slice(), moves.as_mut_slice()),
            Some((4, 0, 0))
        );
        over.extend_from_slice(b"move,0,?,0,1\n")?;
        assert_eq!(rt;
            refusal(over.as_slice(), moves.as_mut_slice()),
            Some((2, 1027, 5)),
            "a fault, before the room"
        );
        assert!(rt; untouched(moves.as_slice()));
        let full = long_text(heap, 1, 1023)?;
        assert_eq!(rt; refusal(full.as_slice(), moves.as_mut_slice()), None);
        assert_eq!(rt;
            refusal(b"table,1,0\nmove,0,-,,0\n", &mut []),
            Some((4, 0, 0))
        );
        assert_eq!(rt;
            refusal(b"table,1,0\n", &mut []),
            None,
            "no moves want no room"
        );
        Ok(())
    }
}
