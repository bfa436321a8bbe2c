//! Command lines, and what they spell.

use cov_words::{Build, Command, Cover, Names, Sim, read_words};
use std::alloc::Global;
use std::fmt::Write;
use std::test::Fail;

/// The names, each behind a blank.
fn listed(alloc: Global, names: &Names<'_>) -> Result<String, Fail> {
    let mut out = String::new(alloc);
    for name in names.collect(alloc)? {
        write!(out, " {name}")?;
    }
    Ok(out)
}

fn build_text(alloc: Global, build: &Build<'_>) -> Result<String, Fail> {
    let files = listed(alloc, &build.files)?;
    Ok(format!(in alloc;
        "build {} {} {:?} {} {} {} {} {} {:?}{files}",
        build.top,
        build.out,
        build.clock,
        build.all,
        build.line,
        build.toggle,
        build.user,
        build.underscore,
        build.max_width
    )?)
}

fn sim_text(alloc: Global, sim: &Sim<'_>) -> Result<String, Fail> {
    Ok(format!(in alloc;
        "sim {:?} {:?} {} {}",
        sim.count_bits, sim.data_name, sim.design, sim.stimulus
    )?)
}

fn cover_text(alloc: Global, cover: &Cover<'_>) -> Result<String, Fail> {
    let files = listed(alloc, &cover.files)?;
    Ok(format!(in alloc;
        "cover {:?} {:?} {} {:?} {} {} {:?} {:?}{files}",
        cover.write,
        cover.write_info,
        cover.rank,
        cover.annotate,
        cover.annotate_all,
        cover.annotate_points,
        cover.annotate_min,
        cover.filter_type
    )?)
}

/// What the words spell; they stand with a blank between each two.
fn shown(alloc: Global, line: &str) -> Result<String, Fail> {
    let mut words = Vec::new(alloc);
    for word in line.split(' ') {
        words.push(String::from_str(alloc, word)?)?;
    }
    match read_words(words.as_slice()) {
        None => Ok(String::from_str(alloc, "none")?),
        Some(Command::Check(files)) => {
            let files = listed(alloc, &files)?;
            Ok(format!(in alloc; "check{files}")?)
        }
        Some(Command::Build(build)) => build_text(alloc, &build),
        Some(Command::Sim(sim)) => sim_text(alloc, &sim),
        Some(Command::Cover(cover)) => cover_text(alloc, &cover),
        Some(Command::SelfTest(stages)) => Ok(format!(in alloc; "selftest {stages}")?),
    }
}

#[test]
fn command_lines(rt: HostRuntime) -> Result<(), Fail> {
    for (line, want) in [
        ("", "none"),
        ("--version", "none"),
        ("check", "none"),
        ("check a.v b.v -", "check a.v b.v -"),
        ("check -x", "none"),
        ("check a.v -- -x --", "check a.v -x --"),
        ("regress a.v", "none"),
        (
            "build a.v --top t --out=o b.v",
            "build t o None false false false false false None a.v b.v",
        ),
        (
            "build --coverage --coverage-line --coverage-toggle --coverage-user --coverage-underscore \
             --coverage-max-width 04294967296 --clock=ck --top=_t$1 --out o -- --top",
            "build _t$1 o Some(\"ck\") true true true true true Some(4294967296) --top",
        ),
        (
            "build --coverage-max-width 4294967297 --top t --out o a.v",
            "none",
        ),
        ("build --top module --out o a.v", "none"),
        ("build --top 1t --out o a.v", "none"),
        ("build --out o a.v", "none"),
        ("build --top t a.v", "none"),
        ("sim d s", "sim None None d s"),
        (
            "sim --count-bits=64 d --data n s",
            "sim Some(64) Some(\"n\") d s",
        ),
        ("sim --count-bits=65 d s", "none"),
        ("sim --count-bits=0 d s", "none"),
        ("sim d s t", "none"),
        (
            "cover d",
            "cover None None false None false false None None d",
        ),
        (
            "cover --write=a --write-info b --rank --annotate c --annotate-all --annotate-points \
             --annotate-min=18446744073709551615 --filter-type=b?_0* d e",
            "cover Some(\"a\") Some(\"b\") true Some(\"c\") true true \
             Some(18446744073709551615) Some(\"b?_0*\") d e",
        ),
        ("cover --annotate-points d", "none"),
        ("cover --annotate-min 18446744073709551616 d", "none"),
        ("cover --filter-type A d", "none"),
        ("cover --rank --rank d", "none"),
        ("cover --rank=1 d", "none"),
        ("selftest 1", "selftest 1"),
        ("selftest 10000", "selftest 10000"),
        ("selftest +1", "none"),
    ] {
        assert_eq!(rt; shown(rt.alloc(), line)?.as_str(), want);
    }
    Ok(())
}
