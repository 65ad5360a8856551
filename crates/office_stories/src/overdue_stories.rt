//! What was to be confirmed by its deadline and was not.

pub(crate) const OVERDUE: &str = r#"
# A record is overdue on the day after its deadline, unless its confirmation counts
## at the desk of the base office
2025-01-02 confirm 1 destroy = done
overdue-list 2025-02-01 30 is []
overdue-list 2025-02-02 30 is [2, 3]
overdue-list 2025-01-02 0 is []
overdue-list 2025-01-03 0 is [2, 3]
overdue-list 2034-12-31 3650 is []
overdue-list 2035-01-01 3650 is [2, 3]
overdue-list 0001-01-01 0 is []
overdue-list 2999-12-31 3650 is [2, 3]
## by the program
overdue 2025-02-01 30 = 0;record,ref,class,schedule,action,due,deadline,held\n;
overdue 2025-02-02 30 = 0;record,ref,class,schedule,action,due,deadline,held\n2,r2,LEG,D1,destroy,2025-01-02,2025-02-01,\n3,r3,FIN,D1,destroy,2025-01-02,2025-02-01,\n;
overdue 2025-01-02 0 = 0;record,ref,class,schedule,action,due,deadline,held\n;
overdue 2025-01-03 0 = 0;record,ref,class,schedule,action,due,deadline,held\n2,r2,LEG,D1,destroy,2025-01-02,2025-01-02,\n3,r3,FIN,D1,destroy,2025-01-02,2025-01-02,\n;
overdue 2999-12-31 3650 = 0;record,ref,class,schedule,action,due,deadline,held\n2,r2,LEG,D1,destroy,2025-01-02,2034-12-31,\n3,r3,FIN,D1,destroy,2025-01-02,2034-12-31,\n;
## clients in pieces of 7
GET /overdue/2025-02-01/30 = 200 OK, application/json, 2: []
GET /overdue/2025-02-02/30 = 200 OK, application/json, 257: [{"action":"destroy","class":"LEG","deadline":"2025-02-01","due":"2025-01-02","held":null,"record":2,"ref":"r2","schedule":"D1"},{"action":"destroy","class":"FIN","deadline":"2025-02-01","due":"2025-01-02","held":null,"record":3,"ref":"r3","schedule":"D1"}]
GET /overdue/2025-02-02/030 = 200 OK, application/json, 257: [{"action":"destroy","class":"LEG","deadline":"2025-02-01","due":"2025-01-02","held":null,"record":2,"ref":"r2","schedule":"D1"},{"action":"destroy","class":"FIN","deadline":"2025-02-01","due":"2025-01-02","held":null,"record":3,"ref":"r3","schedule":"D1"}]
GET /overdue/2025-02-02/3650 = 200 OK, application/json, 2: []
GET /overdue/2025-02-02/00000000000000000000030 = 200 OK, application/json, 257: [{"action":"destroy","class":"LEG","deadline":"2025-02-01","due":"2025-01-02","held":null,"record":2,"ref":"r2","schedule":"D1"},{"action":"destroy","class":"FIN","deadline":"2025-02-01","due":"2025-01-02","held":null,"record":3,"ref":"r3","schedule":"D1"}]
GET /overdue/2025-02-02/3651 = 400 Bad Request, application/json, 17: {"error":"count"}
GET /overdue/2025-02-02/99999999999999999999999 = 400 Bad Request, application/json, 17: {"error":"count"}
GET /overdue/2025-02-02/-1 = 400 Bad Request, application/json, 17: {"error":"count"}
GET /overdue/2025-02-02/x = 400 Bad Request, application/json, 17: {"error":"count"}
GET /overdue/2025-2-2/x = 400 Bad Request, application/json, 15: {"error":"day"}
GET /overdue/2025-2-2/30 = 400 Bad Request, application/json, 15: {"error":"day"}
GET /overdue/2025-02-02 = 404 Not Found, application/json, 16: {"error":"path"}
GET /overdue/2025-02-02/ = 404 Not Found, application/json, 16: {"error":"path"}
GET /overdue/2025-02-02/30/ = 404 Not Found, application/json, 16: {"error":"path"}
GET /overdue//30 = 404 Not Found, application/json, 16: {"error":"path"}
HEAD /overdue/2025-02-02/30 = bytes HTTP/1.1 405 Method Not Allowed\r\nContent-Type: application/json\r\nContent-Length: 18\r\nAllow: GET\r\nConnection: close\r\n\r\n, in all 118
POST /overdue/2025-02-02/30 = bytes HTTP/1.1 405 Method Not Allowed\r\nContent-Type: application/json\r\nContent-Length: 18\r\nAllow: GET\r\nConnection: close\r\n\r\n{"error":"method"}, in all 136
## at the desk
2025-01-02 place-hold H = done
2025-01-02 hold-on H record 2 = done
## by the program
overdue 2025-02-02 30 = 0;record,ref,class,schedule,action,due,deadline,held\n2,r2,LEG,D1,destroy,2025-01-02,2025-02-01,H\n3,r3,FIN,D1,destroy,2025-01-02,2025-02-01,\n;
## clients in pieces of 4096
GET /overdue/2025-02-02/30 = 200 OK, application/json, 256: [{"action":"destroy","class":"LEG","deadline":"2025-02-01","due":"2025-01-02","held":"H","record":2,"ref":"r2","schedule":"D1"},{"action":"destroy","class":"FIN","deadline":"2025-02-01","due":"2025-01-02","held":null,"record":3,"ref":"r3","schedule":"D1"}]

# A record is overdue again where its confirmation stops counting, and the list goes by deadline and then by number
## at the desk of the base office
2025-01-02 confirm 1 destroy = done
2025-01-03 add-schedule Y added days 400 destroy = done
2025-01-03 set-record-schedule 1 Y = done
overdue-list 2025-03-07 30 is [2, 3]
overdue-list 2025-03-08 30 is [2, 3, 1]
2025-02-05 confirm 1 destroy = done
overdue-list 2025-03-08 30 is [2, 3]
2025-02-05 set-record-schedule 1 - = done
overdue-list 2025-03-08 30 is [1, 2, 3]
2025-02-05 add-schedule Y2 added years 2 destroy = done
2025-02-05 set-record-schedule 1 Y2 = done
## by the program
overdue 2026-02-01 30 = 0;record,ref,class,schedule,action,due,deadline,held\n2,r2,LEG,D1,destroy,2025-01-02,2025-02-01,\n3,r3,FIN,D1,destroy,2025-01-02,2025-02-01,\n;
overdue 2026-02-02 30 = 0;record,ref,class,schedule,action,due,deadline,held\n2,r2,LEG,D1,destroy,2025-01-02,2025-02-01,\n3,r3,FIN,D1,destroy,2025-01-02,2025-02-01,\n1,r1,FIN,Y2,destroy,2026-01-02,2026-02-01,\n;

# What is to be reviewed is overdue until its review moves its due day
## at the desk of the base office
2024-01-02 add-schedule R1 added days 1 review = done
2024-01-02 add-schedule R2 review days 10 review = done
2024-01-02 set-record-schedule 3 R1 = done
overdue-list 2024-01-03 0 is []
overdue-list 2024-01-04 0 is [3]
2024-01-03 review 3 - = done
overdue-list 2024-01-04 0 is [3]
2024-01-03 review 3 R2 = done
overdue-list 2024-01-13 0 is []
overdue-list 2024-01-14 0 is [3]
## by the program
overdue 2024-01-14 0 = 0;record,ref,class,schedule,action,due,deadline,held\n3,r3,FIN,R2,review,2024-01-13,2024-01-13,\n;

# What is sent, received or ended, kept, or without a due day is never overdue, and a hold makes no difference
## at the desk of the busy office
overdue-list 2999-12-31 0 is [7, 3]
2025-01-02 add-schedule K added days 0 keep = done
2025-01-02 add-schedule E event days 0 destroy = done
2025-01-02 set-record-schedule 3 K = done
overdue-list 2999-12-31 0 is [7]
2025-01-02 set-record-schedule 3 E = done
overdue-list 2999-12-31 0 is [7]
2025-01-02 event 3 2025-01-01 = done
overdue-list 2025-01-01 0 is [7]
overdue-list 2025-01-02 0 is [7, 3]
2025-01-02 set-record-schedule 2 D1 = done
overdue-list 2025-01-03 0 is [7, 3]
2025-01-02 set-record-schedule 2 E = done
2025-01-02 event 2 2025-01-01 = done
overdue-list 2025-01-03 0 is [7, 2, 3]
2025-01-02 set-record-schedule 7 K = done
## by the program
overdue 2025-01-03 0 = 0;record,ref,class,schedule,action,due,deadline,held\n2,r2,LEG,E,destroy,2025-01-01,2025-01-01,H\n3,r3,FIN,E,destroy,2025-01-01,2025-01-01,\n;

# A ref is put in quotes where it needs them
## at the desk of the base office
## by the program
import 2024-01-02 ref,title,originated,aggregation,class,schedule,content\n"a, ""b""",x,2023-05-01,1,,,\n = 0;1 number 4\n;
overdue 2999-12-31 0 = 0;record,ref,class,schedule,action,due,deadline,held\n1,r1,FIN,D1,destroy,2025-01-02,2025-01-02,\n2,r2,LEG,D1,destroy,2025-01-02,2025-01-02,\n3,r3,FIN,D1,destroy,2025-01-02,2025-01-02,\n4,"a, ""b""",FIN,D1,destroy,2025-01-02,2025-01-02,\n;

# A new office has nothing overdue
## by the program
overdue 2999-12-31 0 = 0;record,ref,class,schedule,action,due,deadline,held\n;
"#;

/// The register and its request, lost at each byte.
pub(crate) const LOST_OVERDUE: &str = r#"
# A register of what is overdue that is lost leaves the office as it was for each <n> of 0 to 136
## at the desk of the base office
2025-01-02 confirm 1 destroy = done
## by the program
overdue 2025-02-02 30 = 3;record,ref,class,schedule,action,due,deadline,held\n2,r2,LEG,D1,destroy,2025-01-02,2025-02-01,\n3,r3,FIN,D1,destroy,2025-01-02,2025-02-01,\n;office: file\n while written up to <n>
overdue 2025-02-02 30 = 0;record,ref,class,schedule,action,due,deadline,held\n2,r2,LEG,D1,destroy,2025-01-02,2025-02-01,\n3,r3,FIN,D1,destroy,2025-01-02,2025-02-01,\n;

# What is overdue is asked for by clients that are lost
## at the desk of the base office
2025-01-02 confirm 1 destroy = done
## clients in pieces of 7
first <n> of GET /overdue/2025-02-02/30 = lost for each <n> of 0 to 47
first <n> of GET /overdue/2025-02-02/30 = 400 Bad Request, application/json, 16: {"error":"head"} for each <n> of 1 to 47
GET /overdue/2025-02-02/30 = 200 OK, application/json, 257: [{"action":"destroy","class":"LEG","deadline":"2025-02-01","due":"2025-01-02","held":null,"record":2,"ref":"r2","schedule":"D1"},{"action":"destroy","class":"FIN","deadline":"2025-02-01","due":"2025-01-02","held":null,"record":3,"ref":"r3","schedule":"D1"}], in all 348, lost after <n> for each <n> of 0 to 347
GET /overdue/2025-02-02/30 = 200 OK, application/json, 257: [{"action":"destroy","class":"LEG","deadline":"2025-02-01","due":"2025-01-02","held":null,"record":2,"ref":"r2","schedule":"D1"},{"action":"destroy","class":"FIN","deadline":"2025-02-01","due":"2025-01-02","held":null,"record":3,"ref":"r3","schedule":"D1"}], in all 348
"#;
