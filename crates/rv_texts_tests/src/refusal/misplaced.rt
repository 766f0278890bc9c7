use crate::refusal::{Refused, check_whole};
use std::test::Fail;

// Descriptions with names that are known elsewhere, with arrivals, and with names that nothing is near.
static MISPLACED: [Refused; 17] = [
    Refused {
        job: b"[[arrival]]\ncycle = 5\nline = \"timer\"\n%%\nebreak\n",
        why: b"\
line 1 of the job, line 1 of its description
    [[arrival]]
      ^
expected: a key or a table of a description
hint: arrivals are the second of three parts; is a line %% missing before them?
",
    },
    Refused {
        job: b"[cache]\nsets = 4\n\n [ arrival ]\ncycle = 5\n%%\nebreak\n",
        why: b"\
line 4 of the job, line 4 of its description
     [ arrival ]
       ^
expected: a key or a table of a description
hint: arrivals are the second of three parts; is a line %% missing before them?
",
    },
    Refused {
        job: b"[cache]\narrivals = 5\n%%\nebreak\n",
        why: b"\
line 2 of the job, line 2 of its description
    arrivals = 5
    ^
expected: a key or a table of a description
hint: the keys of cache are sets, ways, line, hit, miss, write_back, and no others
",
    },
    Refused {
        job: b"rob = 8\n[[ cach ]]\nsets = 4\n%%\n",
        why: b"\
line 2 of the job, line 2 of its description
    [[ cach ]]
       ^
expected: a key or a table of a description
nearest: cache
",
    },
    Refused {
        job: b"[[cache]]\nsets = 4\n[aluu]\nunits = 1\n%%\n",
        why: b"\
line 3 of the job, line 3 of its description
    [aluu]
     ^
expected: a key or a table of a description
nearest: alu
",
    },
    Refused {
        job: b"[cache]\nsets = 4\n[alu]\nsets = 4\n%%\n",
        why: b"\
line 4 of the job, line 4 of its description
    sets = 4
    ^
expected: a key or a table of a description
hint: here it is alu.sets
nearest: cache.sets
",
    },
    Refused {
        job: b"[alu]\ncache.sets = 4\n%%\n",
        why: b"\
line 2 of the job, line 2 of its description
    cache.sets = 4
    ^
expected: a key or a table of a description
hint: here it is alu.cache.sets; the keys of no table stand above the first [table]
",
    },
    Refused {
        job: b"[cache]\nmul = { units = 2 }\n%%\n",
        why: b"\
line 2 of the job, line 2 of its description
    mul = { units = 2 }
    ^
expected: a key or a table of a description
hint: here it is cache.mul; the keys of no table stand above the first [table]
",
    },
    Refused {
        job: b"rob = 8\n[cache]\nsets = 4\nsets_per_way = 4\n%%\n",
        why: b"\
line 4 of the job, line 4 of its description
    sets_per_way = 4
    ^
expected: a key or a table of a description
hint: the keys of cache are sets, ways, line, hit, miss, write_back, and no others
",
    },
    Refused {
        job: b"[cache]\nsets = 4\n[mem]\nROB = 8\n%%\n",
        why: b"\
line 4 of the job, line 4 of its description
    ROB = 8
    ^
expected: a key or a table of a description
hint: the keys of mem are stations, units, latency, pipelined, and no others
",
    },
    Refused {
        job: b"[report]\nname = \"loads\"\n%%\n",
        why: b"\
line 2 of the job, line 2 of its description
    name = \"loads\"
    ^
expected: a key or a table of a description
hint: the keys of report are dump_address, dump_words, and no others
",
    },
    Refused {
        job: b"[predictor]\nfriend = 1\n%%\n",
        why: b"\
line 2 of the job, line 2 of its description
    friend = 1
    ^
expected: a key or a table of a description
hint: the keys of predictor are kind, entries, and no others
",
    },
    Refused {
        job: b"[rob]\nentries_of_it = 8\n[core]\n%%\n",
        why: b"\
line 2 of the job, line 2 of its description
    entries_of_it = 8
    ^
expected: a key or a table of a description
hint: the keys of no table are ram_base, ram_size, rom_bytes, fetch_width, dispatch_width, commit_width, bus_width, fetch_buffer, rob, store_queue, forward, recovery, and no others
hint: the tables are alu, mul, div, mem, cache, predictor, report, and no others
",
    },
    Refused {
        job: b"cache.associativity = 2\n%%\n",
        why: b"\
line 1 of the job, line 1 of its description
    cache.associativity = 2
    ^
expected: a key or a table of a description
hint: the keys of cache are sets, ways, line, hit, miss, write_back, and no others
",
    },
    Refused {
        job: b"[core]\nrob = 8\n%%\n",
        why: b"\
line 1 of the job, line 1 of its description
    [core]
     ^
expected: a key or a table of a description
hint: the tables are alu, mul, div, mem, cache, predictor, report, and no others
",
    },
    Refused {
        job: b"[cache.first]\nsets = 4\n%%\n",
        why: b"\
line 1 of the job, line 1 of its description
    [cache.first]
     ^
expected: a key or a table of a description
hint: the keys of cache are sets, ways, line, hit, miss, write_back, and no others
",
    },
    Refused {
        job: b"[cache]\nfirst.sets = 4\n%%\n",
        why: b"\
line 2 of the job, line 2 of its description
    first.sets = 4
    ^
expected: a key or a table of a description
hint: the keys of cache are sets, ways, line, hit, miss, write_back, and no others
",
    },
];

#[test]
fn a_refusal_says_where_a_name_is_known_and_which_ones_are(rt: HostRuntime) -> Result<(), Fail> {
    check_whole(&rt, rt.alloc(), &MISPLACED)
}
