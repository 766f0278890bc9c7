use crate::refusal::{Refused, check_whole};
use std::test::Fail;

// Descriptions that are refused by the value at a key, and why.
static VALUES: [Refused; 11] = [
    Refused {
        job: b"\xef\xbb\xbf[cache]\nsets = 3\n%%\nebreak\n",
        why: b"\
line 2 of the job, line 2 of its description
    sets = 3
    ^
expected: cache.sets is a power of two from 1 to 256, by default 16
",
    },
    Refused {
        job: b"rob = 0\n%%\nebreak\n",
        why: b"\
line 1 of the job, line 1 of its description
    rob = 0
    ^
expected: rob is a number from 1 to 256, by default 16
",
    },
    Refused {
        job: b"# a machine\nrob = 8\n\n[ cache ]\n\tsets = 3\n%%\nebreak\n",
        why: b"\
line 5 of the job, line 5 of its description
     sets = 3
     ^
expected: cache.sets is a power of two from 1 to 256, by default 16
",
    },
    Refused {
        job: b"alu.units = 2\ncache.line = \"x\"\n%%\n",
        why: b"\
line 2 of the job, line 2 of its description
    cache.line = \"x\"
    ^
expected: cache.line is a power of two from 4 to 128, by default 16
",
    },
    Refused {
        job: b"cache = 3\n%%\n",
        why: b"\
line 1 of the job, line 1 of its description
    cache = 3
    ^
expected: cache is a table, as in a line '[cache]' before those of its keys
",
    },
    Refused {
        job: b"ram_size = 5000\n%%\n",
        why: b"\
line 1 of the job, line 1 of its description
    ram_size = 5000
    ^
expected: ram_size is a multiple of 4096 from 4096 to 16777216, by default 65536
",
    },
    Refused {
        job: b"rob = 8\nrom_bytes = 1\r\n%%\n",
        why: b"\
line 2 of the job, line 2 of its description
    rom_bytes = 1
    ^
expected: rom_bytes is a multiple of 4096 from 0 to ram_size, by default 0
",
    },
    Refused {
        job: b"[report]\ndump_address = 2\n%%\n",
        why: b"\
line 2 of the job, line 2 of its description
    dump_address = 2
    ^
expected: report.dump_address is a multiple of 4 from 0x0 to 0xfffffffc, by default 0x0
",
    },
    Refused {
        job: b"recovery = \"late\"\n%%\n",
        why: b"\
line 1 of the job, line 1 of its description
    recovery = \"late\"
    ^
expected: recovery is \"commit\" or \"early\", by default \"commit\"
",
    },
    Refused {
        job: b"[alu]\nunits = 1\n[div]\nunits = 1\npipelined = 1\n%%\n",
        why: b"\
line 5 of the job, line 5 of its description
    pipelined = 1
    ^
expected: div.pipelined is true or false, by default false
",
    },
    Refused {
        job: b"[predictor]\nkind = \"gshare\"\n%%\n",
        why: b"\
line 2 of the job, line 2 of its description
    kind = \"gshare\"
    ^
expected: predictor.kind is \"not_taken\", \"backward_taken\" or \"bimodal\", by default \"bimodal\"
",
    },
];

// Descriptions that give a table a value that is none, its name in quotes or in none, and some that give it a value in
// braces.
static TABLES: [Refused; 6] = [
    Refused {
        job: b"rob = 8\ncache = 4\n%%\n",
        why: b"\
line 2 of the job, line 2 of its description
    cache = 4
    ^
expected: cache is a table, as in a line '[cache]' before those of its keys
",
    },
    Refused {
        job: b"alu = \"fast\"\n%%\n",
        why: b"\
line 1 of the job, line 1 of its description
    alu = \"fast\"
    ^
expected: alu is a table, as in a line '[alu]' before those of its keys
",
    },
    Refused {
        job: b"cache = { sets = 3 }\n%%\n",
        why: b"\
line 1 of the job, line 1 of its description
    cache = { sets = 3 }
    ^
expected: cache.sets is a power of two from 1 to 256, by default 16
",
    },
    Refused {
        job: b"cache = 4 # {\n%%\n",
        why: b"\
line 1 of the job, line 1 of its description
    cache = 4 # {
    ^
expected: cache is a table, as in a line '[cache]' before those of its keys
",
    },
    Refused {
        job: b" \"cache\" = 4\n%%\n",
        why: b"\
line 1 of the job, line 1 of its description
     \"cache\" = 4
     ^
expected: cache is a table, as in a line '[cache]' before those of its keys
",
    },
    Refused {
        job: b"[ 'cache' ]\n'sets' = 3\n%%\n",
        why: b"\
line 2 of the job, line 2 of its description
    'sets' = 3
    ^
expected: cache.sets is a power of two from 1 to 256, by default 16
",
    },
];

// Descriptions with names that are not known, one without the line's name, and one that is no TOML.
static NAMES: [Refused; 10] = [
    Refused {
        job: b"\xef\xbb\xbfrbo = 8\nrob = 8\n%%\n",
        why: b"\
line 1 of the job, line 1 of its description
    rbo = 8
    ^
expected: a key or a table of a description
nearest: rob
",
    },
    Refused {
        job: b"rob = 8\nrbo = 8\n%%\n",
        why: b"\
line 2 of the job, line 2 of its description
    rbo = 8
    ^
expected: a key or a table of a description
nearest: rob
",
    },
    Refused {
        job: b"l2-cache = 1\nfoo = 2\n%%\n",
        why: b"\
line 1 of the job, line 1 of its description
    l2-cache = 1
    ^
expected: a key or a table of a description
hint: the keys of no table are ram_base, ram_size, rom_bytes, fetch_width, dispatch_width, commit_width, bus_width, fetch_buffer, rob, store_queue, forward, recovery, and no others
hint: the tables are alu, mul, div, mem, cache, predictor, report, and no others
",
    },
    Refused {
        job: b"[cahce]\nsets = 4\n%%\n",
        why: b"\
line 1 of the job, line 1 of its description
    [cahce]
     ^
expected: a key or a table of a description
nearest: cache
",
    },
    Refused {
        job: b"[cache]\n  set = 4\n%%\n",
        why: b"\
line 2 of the job, line 2 of its description
      set = 4
      ^
expected: a key or a table of a description
nearest: cache.sets
",
    },
    Refused {
        job: b"cache = { set = 4 }\n%%\n",
        why: b"expected: keys and tables of a description\n",
    },
    Refused {
        job: b"dump_words = 4\n%%\n",
        why: b"\
line 1 of the job, line 1 of its description
    dump_words = 4
    ^
expected: a key or a table of a description
nearest: report.dump_words
",
    },
    Refused {
        job: b"[cache]\nlatency = 4\n%%\n",
        why: b"\
line 2 of the job, line 2 of its description
    latency = 4
    ^
expected: a key or a table of a description
hint: here it is cache.latency
nearest: alu.latency, mul.latency, div.latency, mem.latency
",
    },
    Refused {
        job: b"[cache]\nsets = 4\nrob = 8\n%%\n",
        why: b"\
line 3 of the job, line 3 of its description
    rob = 8
    ^
expected: a key or a table of a description
hint: here it is cache.rob; the keys of no table stand above the first [table]
",
    },
    Refused {
        job: b"ROB = 8\n%%\n",
        why: b"\
line 1 of the job, line 1 of its description
    ROB = 8
    ^
expected: a key or a table of a description
names are written in small letters: rob
",
    },
];

// Texts that are no TOML.
static NO_TOML: [Refused; 10] = [
    Refused {
        job: b"rob 8\n%%\n",
        why: b"\
line 1 of the job, line 1 of its description
    rob 8
    ^
expected: TOML, as in 'rob = 8': a value for each key, strings in quotes, brackets closed, whole numbers up to 9223372036854775807
",
    },
    Refused {
        job: b"# a machine\nmemory = { base = 0 }\n  rob =\nforward = 1\n%%\n",
        why: b"\
line 3 of the job, line 3 of its description
      rob =
      ^
expected: TOML, as in 'rob = 8': a value for each key, strings in quotes, brackets closed, whole numbers up to 9223372036854775807
",
    },
    Refused {
        job: b"rob = 8\n\nrob = 16\n%%\n",
        why: b"\
line 3 of the job, line 3 of its description
    rob = 16
    ^
expected: a key or a table that does not stand above
",
    },
    Refused {
        job: b"[cache]\nsets = 4\n[memory]\n[cache]\nhit = 2\n%%\n",
        why: b"\
line 4 of the job, line 4 of its description
    [cache]
    ^
expected: a key or a table that does not stand above
",
    },
    Refused {
        job: b"rob = 8\npredictor.kind = \"bimodal\nforward = 1\n%%\n",
        why: b"\
line 2 of the job, line 2 of its description
    predictor.kind = \"bimodal
    ^
expected: TOML, as in 'rob = 8': a value for each key, strings in quotes, brackets closed, whole numbers up to 9223372036854775807
",
    },
    Refused {
        job: b"units = {\n  alu = 2\n}\nlatency = [\n1,\n2\n%%\n",
        why: b"\
line 4 of the job, line 4 of its description
    latency = [
    ^
expected: TOML, as in 'rob = 8': a value for each key, strings in quotes, brackets closed, whole numbers up to 9223372036854775807
",
    },
    Refused {
        job: b"rob = 8\n# \xff\n%%\n",
        why: b"\
line 2 of the job, line 2 of its description
    # ?
    ^
expected: TOML, as in 'rob = 8': a value for each key, strings in quotes, brackets closed, whole numbers up to 9223372036854775807
",
    },
    Refused {
        job: b"rob = 8\n%% # arrivals\n[[arrival]]\ncycle = 5\nline = \"timer\"\n%%\nebreak\n",
        why: b"\
line 2 of the job, line 2 of its description
    %% # arrivals
    ^
expected: TOML, as in 'rob = 8': a value for each key, strings in quotes, brackets closed, whole numbers up to 9223372036854775807
hint: a line %% has nothing but these two bytes
",
    },
    Refused {
        job: b"rob = 8\n\t%%\nebreak\n%%\nebreak\n",
        why: b"\
line 2 of the job, line 2 of its description
     %%
     ^
expected: TOML, as in 'rob = 8': a value for each key, strings in quotes, brackets closed, whole numbers up to 9223372036854775807
hint: a line %% has nothing but these two bytes
",
    },
    Refused {
        job: b"% a machine\nrob = 8\n%%\nebreak\n",
        why: b"\
line 1 of the job, line 1 of its description
    % a machine
    ^
expected: TOML, as in 'rob = 8': a value for each key, strings in quotes, brackets closed, whole numbers up to 9223372036854775807
",
    },
];

// Images that do not fit.
static IMAGES: [Refused; 2] = [
    Refused {
        job: b".zero 65537\n",
        why: b"\
the image has 65537 bytes, the RAM that is described 65536 bytes
expected: a shorter program, or a greater ram_size
",
    },
    Refused {
        job: b"ram_size = 4096\n%%\nnop\n.zero 4091\n.data\n.byte 1, 2\n",
        why: b"\
the image has 4098 bytes, the RAM that is described 4096 bytes
expected: a shorter program, or a greater ram_size
",
    },
];

#[test]
fn a_refusal_shows_the_line_of_a_key_and_its_range(rt: HostRuntime) -> Result<(), Fail> {
    check_whole(&rt, rt.alloc(), &VALUES)
}

#[test]
fn a_refusal_shows_the_line_of_an_unknown_name(rt: HostRuntime) -> Result<(), Fail> {
    check_whole(&rt, rt.alloc(), &NAMES)
}

#[test]
fn a_refusal_says_that_a_name_is_one_of_a_table(rt: HostRuntime) -> Result<(), Fail> {
    check_whole(&rt, rt.alloc(), &TABLES)
}

#[test]
fn a_refusal_shows_both_sizes_of_an_image(rt: HostRuntime) -> Result<(), Fail> {
    check_whole(&rt, rt.alloc(), &IMAGES)
}

#[test]
fn a_refusal_shows_the_line_with_which_a_description_is_no_toml(
    rt: HostRuntime,
) -> Result<(), Fail> {
    check_whole(&rt, rt.alloc(), &NO_TOML)
}
