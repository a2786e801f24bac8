//! Lines whose tokens the rules give.

use lv_text::{
    Line, TextFault, Token, TokenKind, TokenLine, first_line, last_line, next_line, number, tokens,
};

#[test]
fn reads_tokens(rt: HostRuntime) -> Result<(), TextFault> {
    let path = tokens(rt.alloc(), b"\ta_1 ->\t07#\xff\r")?;
    let want = [
        Token {
            kind: TokenKind::Word,
            start: 1,
            end: 4,
        },
        Token {
            kind: TokenKind::Arrow,
            start: 5,
            end: 7,
        },
        Token {
            kind: TokenKind::Number,
            start: 8,
            end: 10,
        },
    ];
    assert!(rt; path.as_slice() == &want[..]);
    Ok(())
}

#[test]
fn reads_a_line(rt: HostRuntime) -> Result<(), TextFault> {
    let line = TokenLine::read(rt.alloc(), b"x<=>(!y&z|w)=>v.9 # as")?;
    let want: [(TokenKind, &[u8]); 14] = [
        (TokenKind::Word, b"x"),
        (TokenKind::Iff, b"<=>"),
        (TokenKind::Open, b"("),
        (TokenKind::Not, b"!"),
        (TokenKind::Word, b"y"),
        (TokenKind::And, b"&"),
        (TokenKind::Word, b"z"),
        (TokenKind::Or, b"|"),
        (TokenKind::Word, b"w"),
        (TokenKind::Close, b")"),
        (TokenKind::Implies, b"=>"),
        (TokenKind::Word, b"v"),
        (TokenKind::Dot, b"."),
        (TokenKind::Number, b"9"),
    ];
    assert!(rt; line.len() == 14 && !line.is_empty());
    for (place, (kind, text)) in want.iter().enumerate() {
        assert!(rt; line.kind(place) == Some(*kind));
        assert!(rt; line.text(place) == Some(*text));
    }
    assert!(rt; line.word(4) == Some(b"y".as_slice()));
    assert!(rt; line.word(13).is_none() && line.word(14).is_none());
    assert!(rt; line.says(0, b"x") && !line.says(13, b"9"));
    assert!(rt; line.number(13) == Some(9) && line.number(0).is_none());
    Ok(())
}

#[test]
fn keeps_the_room(rt: HostRuntime) -> Result<(), TextFault> {
    let mut room = Vec::new(rt.alloc());
    let first = TokenLine::read_into(rt.alloc(), &mut room, b"a b c")?;
    assert!(rt; first.len() == 3);
    let mut room = first.into_room();
    let places = room.capacity();
    let second = TokenLine::read_into(rt.alloc(), &mut room, b"end")?;
    assert!(rt; second.len() == 1 && second.says(0, b"end"));
    assert!(rt; second.into_room().capacity() == places);
    Ok(())
}

#[test]
fn tells_the_first_bad_byte(rt: HostRuntime) {
    let table: [(&[u8], usize); 8] = [
        (b"diagnose\r", 8),
        (b"12a", 2),
        (b"a <= b", 2),
        (b"x <", 2),
        (b"- >", 0),
        (b"a\x80", 1),
        (b"?$", 0),
        (b"3_", 1),
    ];
    for (line, place) in table {
        let told =
            matches!(TokenLine::read(rt.alloc(), line), Err(TextFault::BadByte(at)) if at == place);
        assert!(rt; told, "at {place}");
    }
}

#[test]
fn limits_the_length(rt: HostRuntime) -> Result<(), TextFault> {
    let longest = [b'#'; 4096];
    let too_long = [b'#'; 4097];
    assert!(rt; TokenLine::read(rt.alloc(), &longest)?.is_empty());
    assert!(rt;
        matches!(
            TokenLine::read(rt.alloc(), &too_long),
            Err(TextFault::LongLine)
        )
    );
    Ok(())
}

#[test]
fn cuts_lines(rt: HostRuntime) {
    let table: [(&[u8], usize, usize); 6] = [
        (b"\r", 0, 1),
        (b"\r\n", 0, 2),
        (b"diagnose\r\r\nx", 9, 11),
        (b"a\n\r\n", 1, 2),
        (b"# \xff", 3, 3),
        (b"\n", 0, 1),
    ];
    for (text, length, whole) in table {
        assert!(rt;
            next_line(text) == Some(Line { length, whole }),
            "of {whole}"
        );
    }
    assert!(rt; next_line(b"").is_none());
    assert!(rt; first_line(b"ab\r\ncd") == Some((2, 4)));
    assert!(rt; first_line(b"ab\r").is_none());
    assert!(rt; last_line(b"ab\r") == 2);
}

#[test]
fn reads_numbers(rt: HostRuntime) {
    assert!(rt; number(b"007") == Some(7));
    assert!(rt; number(b"340282366920938463463374607431768211455") == Some(u128::MAX));
    assert!(rt; number(b"340282366920938463463374607431768211456").is_none());
    assert!(rt; number(&[b'9'; 200]).is_none());
    assert!(rt; number(&[b'0'; 200]) == Some(0));
}
