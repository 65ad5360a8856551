//! Disposal runs and their certificates.

pub(crate) const RUNS: &str = r#"
# A run of a new office closes at once
## at the desk
2025-01-02 run-step = refused 18
2025-01-02 open-run = number 1
2025-01-02 open-run = refused 17
2025-01-02 run-step = closed 1
2025-01-02 run-step = refused 18
certificate 1 bytes 147
certificate 1 has CERTIFICATE 1\nDAY 2025-01-02\nBY registrar\nENDED 0\nSENT 0\nSKIPPED 0\nSPENT 0\nSHA256 

# A held record is skipped until its last hold is gone
## at the desk of the base office
2025-01-02 place-hold H-9 = done
2025-01-02 hold-on H-9 class LEG = done
2025-01-02 place-hold H-2 = done
2025-01-02 hold-on H-2 record 2 = done
2025-01-02 confirm 1 destroy = done
2025-01-02 confirm 2 destroy = done
2025-01-02 confirm 3 destroy = done
2025-01-02 open-run = number 1
2025-01-02 run-step = step 1 destroyed
2025-01-02 run-step = step 2 skipped
2025-01-02 run-step = step 3 destroyed
2025-01-02 run-step = closed 1
2025-01-02 lift-hold H-2 = done
2025-01-02 open-run = number 2
2025-01-02 run-step = step 2 skipped
2025-01-02 run-step = closed 2
2025-01-02 hold-off H-9 class LEG = done
2025-01-02 open-run = number 3
2025-01-02 run-step = step 2 destroyed
2025-01-02 run-step = closed 3
certificate 1 bytes 501
certificate 1 has ENDED 2\nSENT 0\nSKIPPED 1\nENTRY\t1\tdestroyed\tr1\tFIN\tD1\t2025-01-02\t-\tregistrar\t3\tba7816bf8f01cfea414140de5dae2223b00361a396177a9cb410ff61f20015ad\nENTRY\t2\tskipped\tr2\tLEG\tD1\t2025-01-02\tH-2\tregistrar\t0\te3b0c44298fc1c149afbf4c8996fb92427ae41e4649b934ca495991b7852b855\nENTRY\t3\tdestroyed\tr3\t
certificate 1 has \nSPENT 0\nSHA256 
certificate 2 has \tH-9\tregistrar\t0\t
certificate 4 is none

# A hold that is placed between two steps counts
## at the desk of the base office
2025-01-02 place-hold H-9 = done
2025-01-02 hold-on H-9 class LEG = done
2025-01-02 place-hold H-2 = done
2025-01-02 hold-on H-2 record 2 = done
2025-01-02 confirm 1 destroy = done
2025-01-02 confirm 2 destroy = done
2025-01-02 confirm 3 destroy = done
2025-01-02 open-run = number 1
2025-01-02 run-step = step 1 destroyed
2025-01-02 run-step = step 2 skipped
2025-01-02 hold-on H-2 record 3 = done
2025-01-02 run-step = step 3 skipped
2025-01-02 run-step = closed 1

# What is to be transferred is sent
## at the desk of the base office
2025-01-02 add-schedule T added years 1 transfer = done
2025-01-02 set-record-schedule 1 T = done
2025-01-02 confirm 1 transfer = done
2025-01-02 open-run = number 1
2025-01-02 run-step = step 1 sent
2025-01-02 confirm 1 transfer = refused 14
2025-01-02 run-step = closed 1
certificate 1 has \nENDED 0\nSENT 1\nSKIPPED 0\n

# The last addition counts ended records
## at the desk
2024-01-02 add-schedule L last-addition days 30 destroy = done
2024-01-02 add-class FIN L = done
2024-01-02 add-root A FIN = number 1
2024-01-02 add-record r1 1 abc = number 1
2024-03-01 add-record r2 1 - = number 2
record <n> has "due":"2024-03-31" for each <n> of 1 2
2024-04-02 place-hold H = done
2024-04-02 hold-on H record 1 = done
2024-04-02 confirm 1 destroy = done
2024-04-02 confirm 2 destroy = done
2024-04-02 open-run = number 1
2024-04-02 run-step = step 1 skipped
2024-04-02 run-step = step 2 destroyed
2024-04-02 run-step = closed 1
2024-04-02 lift-hold H = done
2024-04-02 open-run = number 2
2024-04-02 run-step = step 1 destroyed
2024-04-02 run-step = closed 2
certificate 2 has ENTRY\t1\tdestroyed\tr1\tFIN\tL\t2024-03-31\t-\tregistrar\t3\t

# A confirmation for another due day does not count
## at the desk of the base office
2025-01-02 confirm 1 destroy = done
2025-01-02 add-schedule D10 added years 10 destroy = done
2025-01-02 set-class-schedule FIN D10 = done
2025-01-02 open-run = number 1
2025-01-02 run-step = closed 1
2034-01-02 open-run = number 2
2034-01-02 run-step = closed 2
certificate 1 has \nENDED 0\n
certificate 2 has \nENDED 0\n

# Aggregations whose records are all ended are spent
## at the desk
2024-01-02 add-schedule D1 added years 1 destroy = done
2024-01-02 add-class FIN D1 = done
2024-01-02 add-root A FIN = number 1
2024-01-02 add-child B 1 - = number 2
2024-01-02 add-record r1 2 abc = number 1
2024-02-01 close-aggregation 1 = refused 8
2024-02-01 close-aggregation 2 = done
2024-02-01 close-aggregation 1 = done
2025-01-02 confirm 1 destroy = done
2025-01-02 open-run = number 1
2025-01-02 run-step = step 1 destroyed
2025-01-02 run-step = closed 1
certificate 1 has \nSPENT 2\nAGGREGATION\t1\tA\nAGGREGATION\t2\tB\nSHA256 

# An open aggregation is not spent
## at the desk
2024-01-02 add-schedule D1 added years 1 destroy = done
2024-01-02 add-class FIN D1 = done
2024-01-02 add-root A FIN = number 1
2024-01-02 add-child B 1 - = number 2
2024-01-02 add-record r1 2 abc = number 1
2024-02-01 close-aggregation 1 = refused 8
2024-02-01 close-aggregation 2 = done
2025-01-02 confirm 1 destroy = done
2025-01-02 open-run = number 1
2025-01-02 run-step = step 1 destroyed
2025-01-02 run-step = closed 1
certificate 1 has \nSPENT 1\nAGGREGATION\t2\tB\nSHA256 

# A received record ends once no hold covers it
## at the desk of the base office
2024-01-02 add-schedule T added years 1 transfer = done
2024-01-02 set-record-schedule 1 T = done
2025-01-02 confirm 1 transfer = done
2025-01-02 receipt 1 abc = refused 19
2025-01-02 open-run = number 1
2025-01-02 run-step = step 1 sent
2025-01-02 run-step = closed 1
2025-01-02 receipt 1 abd = refused 20
2025-01-02 place-hold H = done
2025-01-02 hold-on H record 1 = done
2025-01-02 receipt 1 abc = done
record 1 has "status":"received"
content 1 is "abc"
2025-01-02 receipt 1 abc = refused 19
2025-01-02 set-record-schedule 1 D1 = refused 14
2025-01-02 open-run = number 2
2025-01-02 run-step = step 1 skipped
record 1 has "status":"received"
content 1 is "abc"
2025-01-02 run-step = closed 2
2025-01-02 lift-hold H = done
2025-01-02 open-run = number 3
2025-01-02 run-step = step 1 transferred
record 1 has "status":"ended"
content 1 is none
2025-01-02 run-step = closed 3
2025-01-02 receipt 1 abc = refused 13
2025-01-02 receipt 9 abc = refused 5
2025-01-01 receipt 9 abc = refused 1
certificate 2 has SKIPPED 1\nENTRY\t1\tskipped\tr1\tFIN\tT\t2025-01-02\tH\t
certificate 3 has ENDED 1\nSENT 0\nSKIPPED 0\nENTRY\t1\ttransferred\tr1\t
"#;
