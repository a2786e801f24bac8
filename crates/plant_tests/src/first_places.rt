//! With ample memory each call answers.

ghost use Rattle.std.specs.Prelude.{◌<◌};

use lv_model_draft::FirstPlaces;
use std::test::Fail;

/// A number as three digits.
fn digits(number: u16) -> [u8; 3]
    requires { number < 1000 }
{
    [
        b'0' + (number / 100) as u8,
        b'0' + (number / 10 % 10) as u8,
        b'0' + (number % 10) as u8,
    ]
}

#[test]
fn a_thousand_names_are_found_where_they_came(rt: HostRuntime) -> Result<(), Fail> {
    let mut names = FirstPlaces::new(rt.alloc());
    for number in 0..1000u16 {
        let name = digits(number);
        assert!(rt; names.find(name.as_slice()).is_none());
        names.note(name.as_slice(), number as usize)?;
    }

    for number in 0..1000u16 {
        let name = digits(number);
        assert_eq!(rt; names.find(name.as_slice()), Some(number as usize));
    }
    assert_eq!(rt; names.find(b"1000".as_slice()), None);
    Ok(())
}

#[test]
fn a_name_keeps_its_first_place(rt: HostRuntime) -> Result<(), Fail> {
    let mut names = FirstPlaces::new(rt.alloc());
    names.note(b"valve".as_slice(), 3)?;
    names.note(b"tank".as_slice(), 4)?;
    names.note(b"valve".as_slice(), 5)?;
    assert_eq!(rt; names.find(b"valve".as_slice()), Some(3));
    assert_eq!(rt; names.find(b"tank".as_slice()), Some(4));
    Ok(())
}
