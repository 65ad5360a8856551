//! Events of records, and periods that begin with them.

pub(crate) const EVENTS: &str = r#"
# A period begins with the record's event
## at the desk of the base office
2024-01-03 add-schedule E event years 2 destroy = done
2024-01-03 set-record-schedule 1 E = done
record 1 bytes 297
record 1 has "due":null,"ended":null,"event":null,"held":null
record 1 has "schedule":"E"
due-list 2999-12-31 is [2, 3]
2024-03-01 confirm 1 destroy = refused 15
2024-03-01 event 1 2024-02-29 = done
record 1 bytes 313
record 1 has "due":"2026-02-28","ended":null,"event":"2024-02-29","held":null
due-list 2026-02-27 is [2, 3]
due-list 2026-02-28 is [2, 3, 1]
## counts of the tables
[2, 2, 2, 3, 1, 3, 0, 0, 0, 0, 0]
## read from the tables
SELECT * FROM events is 1;19782;19783;registrar;
## taken over by memory
with 14 rows

# A later event takes the place of the earlier one, and a confirmation stops counting
## at the desk of the base office
2024-01-03 add-schedule E event years 2 destroy = done
2024-01-03 set-record-schedule 1 E = done
2024-03-01 event 1 2024-02-29 = done
2026-02-28 confirm 1 destroy = done
2026-02-28 event 1 2026-03-01 = refused 21
2026-02-28 event 1 2024-03-31 = done
record 1 has "due":"2026-03-31","ended":null,"event":"2024-03-31"
2026-03-31 open-run = number 1
2026-03-31 run-step = closed 1
certificate 1 has ENDED 0
certificate 1 has SHA256 f15f81c9ad7c47fa4c87b3fc2412913ba57fc616e268bbf7bf70555114a8671c
## read from the tables
SELECT * FROM events is 1;19813;20512;registrar;

# The first event again, and the confirmation counts again
## at the desk of the base office
2024-01-03 add-schedule E event years 2 destroy = done
2024-01-03 set-record-schedule 1 E = done
2024-03-01 event 1 2024-02-29 = done
2026-02-28 confirm 1 destroy = done
2026-02-28 event 1 2024-03-31 = done
2026-02-28 event 1 2024-02-29 = done
2026-02-28 open-run = number 1
2026-02-28 run-step = step 1 destroyed
2026-02-28 run-step = closed 1
certificate 1 has SHA256 0f3f295cd2b868d02b605c0ea53efce95fb53b545ffa7be30deb4a38bc096cc7

# An event while a run is open is read by the run's next step
## at the desk of the base office
2024-01-03 add-schedule E event years 2 destroy = done
2024-01-03 set-record-schedule 1 E = done
2024-03-01 event 1 2024-02-29 = done
2026-02-28 confirm 1 destroy = done
2026-02-28 open-run = number 1
2026-02-28 event 1 2024-03-31 = done
2026-02-28 run-step = closed 1
certificate 1 has ENDED 0

# The plan's trigger is not asked for, and the event counts once the plan does
## at the desk of the base office
2024-03-01 event 1 2024-02-29 = done
record 1 bytes 314
record 1 has "due":"2025-01-02","ended":null,"event":"2024-02-29"
due-list 2025-01-02 is [1, 2, 3]
2024-03-02 add-schedule E event years 2 destroy = done
2024-03-02 set-record-schedule 1 E = done
record 1 has "due":"2026-02-28"
2024-03-02 set-class-schedule FIN E = done
record 3 has "due":null
2024-03-02 set-record-schedule 1 - = done
record 1 has "due":"2026-02-28"

# An event is not after the day of its act, and of a record that is there
## at the desk of the base office
2024-03-01 event 1 2024-03-02 = refused 21
2024-03-01 event 9 2024-03-02 = refused 5
2024-01-01 event 9 2024-03-02 = refused 1
2024-01-02 close-aggregation 2 = done
2024-03-01 event 1 2024-03-01 = done
record 1 has "event":"2024-03-01"
2024-02-29 event 1 2024-02-29 = refused 1

# The first day, and the last
## at the desk of the base office
2024-01-03 add-schedule E event years 2 destroy = done
2024-01-03 set-record-schedule 1 E = done
2024-03-01 event 1 0001-01-01 = done
record 1 has "due":"0003-01-01"
2999-12-31 event 1 2999-12-31 = done
record 1 has "due":"3001-12-31"
2999-12-30 event 1 2999-12-30 = refused 1

# A record that is ended, sent or received has no new event, and keeps the one it has
## at the desk of the base office
2024-01-03 add-schedule T added years 1 transfer = done
2024-01-03 set-record-schedule 2 T = done
2024-03-01 event 1 2024-02-29 = done
2024-03-01 place-hold H = done
2024-03-01 hold-on H record 3 = done
2024-03-02 event 3 2024-03-01 = done
record 3 has "event":"2024-03-01","held":"H"
2025-01-02 confirm 1 destroy = done
2025-01-02 confirm 2 transfer = done
2025-01-02 open-run = number 1
2025-01-02 run-step = step 1 destroyed
2025-01-02 run-step = step 2 sent
2025-01-03 event 1 2025-02-01 = refused 13
2025-01-03 event 2 2025-02-01 = refused 14
record 1 has "ended":{"outcome":"destroyed","run":1},"event":"2024-02-29","held":null
2025-01-03 receipt 2 - = done
2025-01-03 event 2 2025-01-01 = refused 14
2025-01-03 run-step = closed 1
2025-01-03 open-run = number 2
2025-01-03 run-step = step 2 transferred
2025-01-03 event 2 2025-01-01 = refused 13

# An event with other actions than to destroy
## at the desk of the base office
2024-01-03 add-schedule K event years 2 keep = done
2024-01-03 add-schedule V event days 0 review = done
2024-01-03 set-record-schedule 1 K = done
2024-01-03 set-record-schedule 2 V = done
2024-03-01 event 1 2024-02-29 = done
2024-03-01 event 2 2024-03-01 = done
record 1 has "due":null
record 2 has "due":"2024-03-01"
2024-03-01 review 2 - = done
record 2 has "due":"2024-03-01"

# An event is asked for as JSON
## at the desk of the base office
## clients in pieces of 7
POST /acts 88 [{"act":"event","by":"registrar","day":"2024-03-01","occurred":"2024-02-29","record":1}] = 200 OK, application/json, 15: [{"done":true}]
POST /acts 88 [{"act":"event","by":"registrar","day":"2024-03-01","occurred":"2024-02-29","record":9}] = 409 Conflict, application/json, 15: [{"refused":5}]
POST /acts 88 [{"act":"event","by":"registrar","day":"2024-03-01","occurred":"2024-03-02","record":1}] = 409 Conflict, application/json, 16: [{"refused":21}]
POST /acts 71 [{"act":"event","day":"2024-03-01","occurred":"2024-02-29","record":1}] = 400 Bad Request, application/json, 37: {"error":"act","place":0,"refused":2}
POST /acts 88 [{"act":"event","by":"registrar","day":"2024-03-01","occurred":"2024-02-30","record":1}] = 400 Bad Request, application/json, 37: {"error":"act","place":0,"refused":2}
POST /acts 88 [{"act":"event","by":"registrar","day":"2024-03-01","occurred":"2024-02-29","record":0}] = 400 Bad Request, application/json, 37: {"error":"act","place":0,"refused":3}
POST /acts 88 [{"act":"event","by":"registrar","day":"2024-03-01","occurred":"2024-02-30","record":0}] = 400 Bad Request, application/json, 37: {"error":"act","place":0,"refused":2}
GET /records/1 = 200 OK, application/json, 314: {"added":"2024-01-02","aggregation":1,"class":"FIN","confirmed":null,"digest":"ba7816bf8f01cfea414140de5dae2223b00361a396177a9cb410ff61f20015ad","due":"2025-01-02","ended":null,"event":"2024-02-29","held":null,"length":3,"number":1,"originated":"2024-01-02","ref":"r1","schedule":"D1","status":"here","title":"r1"}

# Events of a file are of records that are there, and none is ahead of its act or of the office's day
## at the desk of the base office
2024-01-03 add-schedule E event years 2 destroy = done
2024-01-03 set-record-schedule 1 E = done
2024-03-01 event 1 2024-02-29 = done
## tried on the tables
fault 33 after UPDATE events SET occurred = 19784
fault 33 after UPDATE events SET day = 19784
opened after UPDATE events SET occurred = 19783
fault 33 after UPDATE events SET record = 9
fault 33 after UPDATE events SET record = 0
fault 33 after UPDATE events SET record = -1
fault 33 after UPDATE events SET told_by = ''
fault 33 after UPDATE events SET occurred = -719163
opened after UPDATE events SET occurred = -719162
fault 33 after UPDATE events SET day = 19781
opened after DELETE FROM events
opened after INSERT INTO events VALUES (3, 19724, 19724, 'x')
fault 33 after INSERT INTO events VALUES (4, 19724, 19724, 'x')
## in the tables
INSERT INTO events VALUES (3, 19724, 19724, 'x')
## at the desk
record 3 has "due":"2025-01-02","ended":null,"event":"2024-01-02"
record 1 has "due":"2026-02-28"
## in the tables
DELETE FROM events
## at the desk
record 1 has "due":null,"ended":null,"event":null
"#;

/// The event of a record, and another one in its place.
pub(crate) const STOPPED_EVENTS: &str = "
# An event is recorded, and another one
## at the desk of the base office
2024-01-03 add-schedule E event years 2 destroy = done
2024-01-03 set-record-schedule 1 E = done
## closed
## asked while a disk stops
2024-03-01 event 1 2024-02-29 = done, at least 8
2024-03-02 event 1 2024-02-28 = done, at least 8
## at the desk
record 1 has \"event\":\"2024-02-28\"
";
