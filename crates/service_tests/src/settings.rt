//! Tests of `service_settings`: what is read, what stands there by default, and which fault is told. More of what is
//! read is tried by programs, in `tests/settings` and `tests/rounds`.
use service_settings::{
    Holding, Key, Settings, SettingsFault, Timing, bad_original, read_settings, shown, unknown_keys,
};
use std::alloc::Global;
use std::test::Fail;

/// All that must stand in settings, behind the originals.
const REST: &str = r#"
base = "http://127.0.0.1:8080"
gates = ["127.0.0.1:8080", "[::1]:8081"]
connections = 5
rounds = 2
pause = 60
workers = 4
peers = ["http://127.0.0.1:9080/"]
archives = [{ name = "arc.example", timemap = "http://127.0.0.1:8100/list/" }]
"#;

/// The settings with these originals.
fn settings(alloc: Global, originals: &str) -> Result<String, Fail> {
    Ok(format!(in alloc; "originals = [{originals}]{REST}")?)
}

fn fault_of(alloc: Global, text: &str) -> Option<SettingsFault> {
    read_settings(alloc, text).err()
}

#[test]
fn settings_are_read(rt: HostRuntime) -> Result<(), Fail> {
    let alloc = rt.alloc();
    let text = settings(alloc, "\"http://a.example/\"")?;
    assert!(rt; fault_of(alloc, &text).is_none() && bad_original(alloc, &text).is_none());
    Ok(())
}

#[test]
fn the_first_fault_is_told(rt: HostRuntime) -> Result<(), Fail> {
    for (text, fault) in [
        ("base = 1", SettingsFault::Key(Key::Base)),
        ("base", SettingsFault::Text),
    ] {
        assert!(rt; fault_of(rt.alloc(), text) == Some(fault), "{text}");
    }
    assert!(rt; Key::Base.name() == "base" && Key::Gates.limits() == (1, 64));
    Ok(())
}

/// A bad original is told by its number where a key stands there by which more is told than what is specified.
#[test]
fn a_bad_original_is_told_by_its_number(rt: HostRuntime) -> Result<(), Fail> {
    let alloc = rt.alloc();
    let text = settings(alloc, "\"http://a.example/\", \"ftp\"")?;
    assert!(rt; fault_of(alloc, &text) == Some(SettingsFault::Key(Key::Originals)));
    assert!(rt; bad_original(alloc, &text).is_none(), "as specified");
    let text = format!(in alloc; "again = 60\n{text}")?;
    assert!(rt; bad_original(alloc, &text) == Some(2));
    Ok(())
}

#[test]
fn unknown_keys_are_told(rt: HostRuntime) -> Result<(), Fail> {
    let alloc = rt.alloc();
    let text = format!(in alloc; "publsh = 5\noriginals = []{REST}")?;
    assert!(rt;
        unknown_keys(alloc, text.as_str())?.is_none(),
        "as specified"
    );
    let text = format!(in alloc; "again = 60\n{text}")?;
    let lines = unknown_keys(alloc, text.as_str())?.unwrap_or(Vec::new(alloc));
    assert_eq!(rt; lines.len(), 1);
    for line in &lines {
        assert_eq!(rt; line.as_str(), "unknown key: publsh");
    }
    assert_eq!(rt;
        (Key::named("publish"), Key::named("publsh")),
        (Some(Key::Publish), None)
    );
    Ok(())
}

#[test]
fn what_is_told_is_plain(rt: HostRuntime) -> Result<(), Fail> {
    let alloc = rt.alloc();
    let holding = Holding(Key::Patience).to_string(alloc)?;
    assert_eq!(rt; holding.as_str(), "a number from 1 to 86400");
    assert_eq!(rt; shown(alloc, "a\n", 2)?.as_str(), "a\\x0a");
    assert_eq!(rt; shown(alloc, "abc", 2)?.as_str(), "ab.. (3 bytes)");
    Ok(())
}

/// What is read of these lines and all that must stand beside them.
fn read(alloc: Global, lines: &str) -> Result<Settings, Fail> {
    let text = format!(in alloc; "originals = [\"http://a.example/\"]\n{lines}{REST}")?;
    Ok(read_settings(alloc, &text)?)
}

/// How many threads walk an archive at once, by these settings.
fn at_once_of(alloc: Global, text: &str) -> Result<u64, Fail> {
    let settings = read_settings(alloc, text)?;
    let asking = settings.asking;
    Ok(asking.at_once)
}

/// What these lines say of times.
fn timing_of(alloc: Global, lines: &str) -> Result<Timing, Fail> {
    let settings = read(alloc, lines)?;
    let timing = settings.timing;
    Ok(timing)
}

#[test]
fn what_no_key_says_stands_there_by_default(rt: HostRuntime) -> Result<(), Fail> {
    let settings = read(rt.alloc(), "")?;
    let asking = settings.asking;
    assert_eq!(rt; (asking.at_once, asking.dormant), (4, 600));
    assert!(rt; asking.tolerance.is_none() && asking.walk.is_none() && asking.rate.is_none());
    let timing = settings.timing;
    assert!(rt; timing.again.is_none() && timing.again_none.is_none() && timing.ahead.is_none());
    assert!(rt; timing.publish.is_none() && timing.pull.is_none() && timing.parts.is_none());
    assert_eq!(rt;
        (settings.storing.every, settings.wishing.wishes),
        (600, 60)
    );
    assert!(rt; settings.wishing.wanted.is_none() && !settings.wishing.alike && !settings.ready);
    assert_eq!(rt; (settings.together, settings.wait), (1, None));
    Ok(())
}

/// No two keys hold the same.
#[test]
fn each_key_is_read_to_its_own_place(rt: HostRuntime) -> Result<(), Fail> {
    let settings = read(
        rt.alloc(),
        r#"
at_once = 3
tolerance = 11
dormant = 12
walk = 13
rate = 14
again = 15
again_none = 16
ahead = 17
publish = 18
pull = 19
parts = 20
snapshot = "s"
snapshot_every = 21
wishes = 22
together = 2
"#,
    )?;
    let asking = settings.asking;
    assert_eq!(rt; (asking.at_once, asking.dormant), (3, 12));
    assert_eq!(rt;
        (asking.tolerance, asking.walk, asking.rate),
        (Some(11), Some(13), Some(14))
    );
    let timing = settings.timing;
    assert_eq!(rt;
        (timing.again, timing.again_none, timing.ahead),
        (Some(15), Some(16), Some(17))
    );
    assert_eq!(rt;
        (timing.publish, timing.pull, timing.parts),
        (Some(18), Some(19), Some(20))
    );
    assert_eq!(rt; (settings.storing.every, settings.wishing.wishes), (21, 22));
    assert_eq!(rt; settings.together, 2);
    Ok(())
}

/// What has no copies is asked for again as what has some, unless a key says something else.
#[test]
fn again_is_also_for_what_has_no_copies(rt: HostRuntime) -> Result<(), Fail> {
    for (line, again, again_none) in [
        ("again = 15\n", Some(15), Some(15)),
        ("again_none = 16\n", None, Some(16)),
    ] {
        let timing = timing_of(rt.alloc(), line)?;
        assert_eq!(rt; (timing.again, timing.again_none), (again, again_none));
    }
    Ok(())
}

/// Four threads and three archives: were each archive asked by one thread alone, the fourth would be idle.
#[test]
fn no_thread_is_idle_where_archives_share_them(rt: HostRuntime) -> Result<(), Fail> {
    let text = r#"
originals = []
base = "http://127.0.0.1:8080"
gates = ["127.0.0.1:8080"]
connections = 5
rounds = 2
pause = 60
workers = 4
peers = []
archives = [
    { name = "a.example", timemap = "http://127.0.0.1:8100/list/" },
    { name = "b.example", timemap = "http://127.0.0.1:8101/list/" },
    { name = "c.example", timemap = "http://127.0.0.1:8102/list/" },
]
"#;
    assert_eq!(rt; at_once_of(rt.alloc(), text)?, 2);
    Ok(())
}
