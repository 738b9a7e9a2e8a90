// Command lines as a person writes them.
use crate::{Call, Kind, LargeWords, Words, WordsError, files};
use std::alloc::Global;
use std::test::Fail;

fn words_of(alloc: Global, texts: &[&str]) -> Result<Words, Fail> {
    let mut words = Words::new(alloc);
    for text in texts {
        words.push(text)?;
    }
    Ok(words)
}

#[test]
fn names_the_files(rt: HostRuntime) -> Result<(), Fail> {
    let alloc = rt.alloc();
    let rows: [(&[&str], &str, &str); 4] = [
        (&["check", "a", "b"], "a", "b"),
        (&["solve", "a", "--keep-all", "b"], "a", "b"),
        (&["large", "odd_ring", "5"], "", ""),
        (&["solve", "a"], "", ""),
    ];
    for (texts, cnf, log) in rows {
        let names = files(alloc, &words_of(alloc, texts)?)?;
        assert_eq!(rt; names.cnf.as_str(), cnf, "of {texts:?}");
        assert_eq!(rt; names.log.as_str(), log, "of {texts:?}");
    }
    Ok(())
}

#[test]
fn tells_what_is_called_for(rt: HostRuntime) -> Result<(), Fail> {
    let alloc = rt.alloc();
    let large = words_of(alloc, &["large", "pigeons", "50"])?;
    match large.call(alloc) {
        Ok(Call::Large(words)) => {
            let wanted = LargeWords {
                kind: Kind::Pigeons,
                n: 50,
            };
            assert_eq!(rt; words, wanted);
            Ok(())
        }
        _ => Err(Fail::from("no call")),
    }
}

#[test]
fn tells_what_is_unlawful(rt: HostRuntime) -> Result<(), Fail> {
    let alloc = rt.alloc();
    let rows: [&[&str]; 8] = [
        &[],
        &["solve", "a"],
        &["solve", "a", "b", "--reducers", "9"],
        &["solve", "a", "b", "--fast", "1"],
        &["audit"],
        &["large", "ring", "5"],
        &["large", "odd_ring", "4"],
        &["large", "pigeons", "51"],
    ];
    for texts in rows {
        let words = words_of(alloc, texts)?;
        match words.call(alloc) {
            Err(error) => assert_eq!(rt; error, WordsError::Usage, "of {texts:?}"),
            Ok(_) => return Err(Fail::from("a call")),
        }
    }
    Ok(())
}
