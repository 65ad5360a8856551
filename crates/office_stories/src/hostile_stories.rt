//! Requests as no client of good will sends them, and their answers, byte for byte.

/// What is refused by its head, or by its body.
pub(crate) const HOSTILE: &str = r#"
# What asks for no acts is told, and does nothing, in pieces of some bytes for each <n> of 1 7 4096
## clients in pieces of <n>
POST /acts 39 [{"act":"run-step","day":"2025-01-02"}] = 400 Bad Request, application/json, 37: {"error":"act","place":0,"refused":2}
POST /acts 18 {"act":"run-step"} = 400 Bad Request, application/json, 16: {"error":"json"}
POST /acts 58 [{"act":"open-run","day":"2025-01-02","by":"registrar"},5] = 400 Bad Request, application/json, 37: {"error":"act","place":1,"refused":2}
POST /acts 78 [{"act":"open-run","day":"2025-01-02","by":"registrar"},{"act":"run-step"},[]] = 400 Bad Request, application/json, 37: {"error":"act","place":2,"refused":2}
POST /acts 64 [{"act":"close-aggregation","day":"2024-01-02","aggregation":0}] = 400 Bad Request, application/json, 37: {"error":"act","place":0,"refused":3}
POST /acts 35 [{"act":"burn","day":"2024-01-02"}] = 400 Bad Request, application/json, 37: {"error":"act","place":0,"refused":2}
POST /acts 3 [5] = 400 Bad Request, application/json, 37: {"error":"act","place":0,"refused":2}
POST /acts 4 [{}] = 400 Bad Request, application/json, 37: {"error":"act","place":0,"refused":2}
POST /acts 6 [null] = 400 Bad Request, application/json, 37: {"error":"act","place":0,"refused":2}
POST /acts 6 ["é"] = 400 Bad Request, application/json, 37: {"error":"act","place":0,"refused":2}
POST /acts 4 null = 400 Bad Request, application/json, 16: {"error":"json"}
POST /acts 4 true = 400 Bad Request, application/json, 16: {"error":"json"}
POST /acts 6 "acts" = 400 Bad Request, application/json, 16: {"error":"json"}
POST /acts 1 0 = 400 Bad Request, application/json, 16: {"error":"json"}
POST /acts 1 [ = 400 Bad Request, application/json, 16: {"error":"json"}
POST /acts 3 []] = 400 Bad Request, application/json, 16: {"error":"json"}
POST /acts 3 [,] = 400 Bad Request, application/json, 16: {"error":"json"}
POST /acts 19 [{"act":"run-step"] = 400 Bad Request, application/json, 16: {"error":"json"}
bytes POST /acts HTTP/1.1\r\nHost: h\r\nContent-Length: 0\r\n\r\n = 400 Bad Request, application/json, 16: {"error":"json"}
bytes POST /acts HTTP/1.1\r\nHost: h\r\nContent-Length: 3\r\n\r\n[\x00] = 400 Bad Request, application/json, 16: {"error":"json"}
bytes POST /acts HTTP/1.1\r\nHost: h\r\nContent-Length: 5\r\n\r\n["\xff"] = 400 Bad Request, application/json, 16: {"error":"json"}
bytes POST /acts HTTP/1.1\r\nHost: h\r\nContent-Length: 254\r\n\r\n + [ x 127 + ] x 127 = 400 Bad Request, application/json, 37: {"error":"act","place":0,"refused":2}
bytes POST /acts HTTP/1.1\r\nHost: h\r\nContent-Length: 256\r\n\r\n + [ x 128 + ] x 128 = 400 Bad Request, application/json, 16: {"error":"json"}
bytes POST /acts HTTP/1.1\r\nHost: h\r\nContent-Length: 6\r\n\r\n\r\n[]\t\n = 200 OK, application/json, 2: []
POST /acts 20 [{"act":"run-step"}] = 409 Conflict, application/json, 16: [{"refused":18}]
## counts of the tables
[0, 0, 0, 0, 0, 0, 0, 0, 0, 0, 0]

# The length of a body is said once, in 1 to 19 digits, in pieces of some bytes for each <n> of 1 7 4096
## clients in pieces of <n>
bytes POST /acts HTTP/1.1\r\nHost: h\r\nContent-Length: +5\r\n\r\n[   ] = 400 Bad Request, application/json, 18: {"error":"length"}
bytes POST /acts HTTP/1.1\r\nHost: h\r\nContent-Length: -5\r\n\r\n[   ] = 400 Bad Request, application/json, 18: {"error":"length"}
bytes POST /acts HTTP/1.1\r\nHost: h\r\nContent-Length: 00000000000000000020\r\n\r\n[{"act":"run-step"}] = 400 Bad Request, application/json, 18: {"error":"length"}
bytes POST /acts HTTP/1.1\r\nHost: h\r\nContent-Length: 99999999999999999999\r\n\r\n[{"act":"run-step"}] = 400 Bad Request, application/json, 18: {"error":"length"}
bytes POST /acts HTTP/1.1\r\nHost: h\r\nContent-Length: + 9 x 8000 + \r\n\r\n[] = 400 Bad Request, application/json, 18: {"error":"length"}
bytes POST /acts HTTP/1.1\r\nHost: h\r\nContent-Length:\r\n\r\n[] = 400 Bad Request, application/json, 18: {"error":"length"}
bytes POST /acts HTTP/1.1\r\nHost: h\r\nContent-Length: 2 0\r\n\r\n[{"act":"run-step"}] = 400 Bad Request, application/json, 18: {"error":"length"}
bytes POST /acts HTTP/1.1\r\nHost: h\r\nContent-Length: 20,20\r\n\r\n[{"act":"run-step"}] = 400 Bad Request, application/json, 18: {"error":"length"}
bytes POST /acts HTTP/1.1\r\nHost: h\r\nContent-Length: 20;\r\n\r\n[{"act":"run-step"}] = 400 Bad Request, application/json, 18: {"error":"length"}
bytes POST /acts HTTP/1.1\r\nHost: h\r\nContent-Length: 20.0\r\n\r\n[{"act":"run-step"}] = 400 Bad Request, application/json, 18: {"error":"length"}
bytes POST /acts HTTP/1.1\r\nHost: h\r\nContent-Length: 2e1\r\n\r\n[{"act":"run-step"}] = 400 Bad Request, application/json, 18: {"error":"length"}
bytes POST /acts HTTP/1.1\r\nHost: h\r\nContent-Length: 0x14\r\n\r\n[{"act":"run-step"}] = 400 Bad Request, application/json, 18: {"error":"length"}
bytes POST /acts HTTP/1.1\r\nHost: h\r\nContent-Length: "20"\r\n\r\n[{"act":"run-step"}] = 400 Bad Request, application/json, 18: {"error":"length"}
bytes POST /acts HTTP/1.1\r\nHost: h\r\nContent-Length: ２０\r\n\r\n[{"act":"run-step"}] = 400 Bad Request, application/json, 18: {"error":"length"}
bytes POST /acts HTTP/1.1\r\nHost: h\r\nContent-Length: 20\xff\r\n\r\n[{"act":"run-step"}] = 400 Bad Request, application/json, 18: {"error":"length"}
bytes POST /acts HTTP/1.1\r\nHost: h\r\nContent-Length: 20\r\nContent-Length: 20\r\n\r\n[{"act":"run-step"}] = 400 Bad Request, application/json, 18: {"error":"length"}
bytes POST /acts HTTP/1.1\r\nHost: h\r\nContent-Length: 20\r\nA: b\r\ncontent-length: 2\r\n\r\n[{"act":"run-step"}] = 400 Bad Request, application/json, 18: {"error":"length"}
bytes POST /acts HTTP/1.1\r\nHost: h\r\nContent-Length: 1048577\r\nContent-Length: 2\r\n\r\n[] = 400 Bad Request, application/json, 18: {"error":"length"}
bytes POST /acts HTTP/1.1\r\nHost: h\r\nContent-Length: 1048577\r\n\r\n[] = 413 Payload Too Large, application/json, 16: {"error":"size"}
bytes POST /acts HTTP/1.1\r\nHost: h\r\nContent-Length: 9999999999999999999\r\n\r\n[] = 413 Payload Too Large, application/json, 16: {"error":"size"}
bytes POST /acts HTTP/1.1\r\nHost: h\r\nContent-Length: 1048576\r\n\r\n[] = 400 Bad Request, application/json, 16: {"error":"body"}
bytes POST /acts HTTP/1.1\r\nHost: h\r\nContent-Length: 3\r\n\r\n[] = 400 Bad Request, application/json, 16: {"error":"body"}
bytes POST /acts HTTP/1.1\r\nHost: h\r\n\r\n[{"act":"run-step"}] = 411 Length Required, application/json, 18: {"error":"length"}
bytes POST /acts HTTP/1.1\r\nHost: h\r\nContent-Lengths: 20\r\n\r\n[{"act":"run-step"}] = 411 Length Required, application/json, 18: {"error":"length"}
bytes POST /acts HTTP/1.1\r\nHost: h\r\nContent_Length: 20\r\n\r\n[{"act":"run-step"}] = 411 Length Required, application/json, 18: {"error":"length"}
bytes POST /acts HTTP/1.1\r\nHost: h\r\nContent-Length: 0000000000000000020\r\n\r\n[{"act":"run-step"}] = 409 Conflict, application/json, 16: [{"refused":18}]
bytes POST /acts HTTP/1.1\r\nHost: h\r\nContent-Length: 020\r\n\r\n[{"act":"run-step"}] = 409 Conflict, application/json, 16: [{"refused":18}]
bytes POST /acts HTTP/1.1\r\nHost: h\r\nCONTENT-LENGTH:\t 20 \t \r\n\r\n[{"act":"run-step"}] = 409 Conflict, application/json, 16: [{"refused":18}]
bytes POST /acts HTTP/1.1\r\nHost: h\r\nContent-Length:20\r\n\r\n[{"act":"run-step"}] = 409 Conflict, application/json, 16: [{"refused":18}]

# A transfer coding is not built, whatever it is, in pieces of some bytes for each <n> of 1 7 4096
## clients in pieces of <n>
bytes POST /acts HTTP/1.1\r\nHost: h\r\nTransfer-Encoding: chunked\r\nContent-Length: 5\r\n\r\n0\r\n\r\n = 501 Not Implemented, application/json, 18: {"error":"coding"}
bytes POST /acts HTTP/1.1\r\nHost: h\r\nContent-Length: 5\r\nTransfer-Encoding: chunked\r\n\r\n0\r\n\r\n = 501 Not Implemented, application/json, 18: {"error":"coding"}
bytes POST /acts HTTP/1.1\r\nHost: h\r\nTransfer-Encoding: chunked\r\n\r\n2\r\n[]\r\n0\r\n\r\n = 501 Not Implemented, application/json, 18: {"error":"coding"}
bytes POST /acts HTTP/1.1\r\nHost: h\r\nTransfer-Encoding: identity\r\nContent-Length: 2\r\n\r\n[] = 501 Not Implemented, application/json, 18: {"error":"coding"}
bytes POST /acts HTTP/1.1\r\nHost: h\r\nTransfer-Encoding:\r\nContent-Length: 2\r\n\r\n[] = 501 Not Implemented, application/json, 18: {"error":"coding"}
bytes POST /acts HTTP/1.1\r\nHost: h\r\ntransfer-encoding: gzip\r\nTRANSFER-ENCODING: chunked\r\nContent-Length: 2\r\n\r\n[] = 501 Not Implemented, application/json, 18: {"error":"coding"}
bytes POST /acts HTTP/1.1\r\nHost: h\r\nTransfer-Encoding: \x7f\r\nContent-Length: 2\r\n\r\n[] = 400 Bad Request, application/json, 16: {"error":"head"}
bytes POST /acts HTTP/1.1\r\nHost: h\r\nTransfer-Encoding: \xff\r\nContent-Length: +2\r\n\r\n[] = 501 Not Implemented, application/json, 18: {"error":"coding"}
bytes POST /acts HTTP/1.0\r\nTransfer-Encoding: chunked\r\nContent-Length: 2\r\n\r\n[] = 501 Not Implemented, application/json, 18: {"error":"coding"}
bytes POST /acts HTTP/1.1\r\nHost: h\r\nTransfer_Encoding: chunked\r\nContent-Length: 2\r\n\r\n[] = 200 OK, application/json, 2: []
bytes POST /acts HTTP/1.1\r\nHost: h\r\nContent-Encoding: gzip\r\nTE: chunked\r\nContent-Length: 2\r\n\r\n[] = 200 OK, application/json, 2: []
bytes POST /run/resume HTTP/1.1\r\nHost: h\r\nTransfer-Encoding: chunked\r\nContent-Length: +5\r\n\r\n0\r\n\r\n = 409 Conflict, application/json, 14: {"refused":18}

# HTTP/1.1 has one Host line, in pieces of some bytes for each <n> of 1 7 4096
## clients in pieces of <n>
bytes GET /nothing HTTP/1.1\r\nHost: h\r\nHost: h\r\n\r\n = 400 Bad Request, application/json, 16: {"error":"host"}
bytes GET /nothing HTTP/1.1\r\nHost: h\r\nA: b\r\nhOsT: other\r\n\r\n = 400 Bad Request, application/json, 16: {"error":"host"}
bytes GET /nothing HTTP/1.1\r\n\r\n = 400 Bad Request, application/json, 16: {"error":"host"}
bytes GET /nothing HTTP/1.1\r\nHosts: h\r\nX-Host: h\r\n\r\n = 400 Bad Request, application/json, 16: {"error":"host"}
bytes POST /acts HTTP/1.1\r\nContent-Length: 20\r\n\r\n[{"act":"run-step"}] = 400 Bad Request, application/json, 16: {"error":"host"}
bytes POST /acts HTTP/1.1\r\nTransfer-Encoding: chunked\r\nContent-Length: +5\r\n\r\n = 400 Bad Request, application/json, 16: {"error":"host"}
bytes GET /nothing HTTP/1.1\r\nHost:\r\n\r\n = 404 Not Found, application/json, 16: {"error":"path"}
bytes GET /nothing HTTP/1.1\r\nHost: a, b é \xff\r\n\r\n = 404 Not Found, application/json, 16: {"error":"path"}
bytes GET /nothing HTTP/1.1\r\nhost:h\r\n\r\n = 404 Not Found, application/json, 16: {"error":"path"}
bytes GET /nothing HTTP/1.0\r\n\r\n = 404 Not Found, application/json, 16: {"error":"path"}
bytes GET /nothing HTTP/1.0\r\nHost: a\r\nHost: b\r\n\r\n = 404 Not Found, application/json, 16: {"error":"path"}
bytes POST /acts HTTP/1.0\r\nContent-Length: 20\r\n\r\n[{"act":"run-step"}] = 409 Conflict, application/json, 16: [{"refused":18}]

# Bytes that are no head, in pieces of some bytes for each <n> of 1 7 4096
## clients in pieces of <n>
nothing = nothing
bytes \r\n = 400 Bad Request, application/json, 16: {"error":"head"}
bytes \r\n\r\n = 400 Bad Request, application/json, 16: {"error":"head"}
bytes \n = 400 Bad Request, application/json, 16: {"error":"head"}
bytes \x00 = 400 Bad Request, application/json, 16: {"error":"head"}
bytes é = 400 Bad Request, application/json, 16: {"error":"head"}
bytes \xff\xff\xff\xff = 400 Bad Request, application/json, 16: {"error":"head"}
bytes [{"act":"run-step"}] = 400 Bad Request, application/json, 16: {"error":"head"}
bytes GET = 400 Bad Request, application/json, 16: {"error":"head"}
bytes GET /nothing = 400 Bad Request, application/json, 16: {"error":"head"}
bytes GET /nothing HTTP/1.1 = 400 Bad Request, application/json, 16: {"error":"head"}
bytes GET /nothing HTTP/1.1\r = 400 Bad Request, application/json, 16: {"error":"head"}
bytes GET /nothing HTTP/1.1\r\nHost: h\r\n = 400 Bad Request, application/json, 16: {"error":"head"}
bytes GET /nothing HTTP/1.1\r\nHost: h\r\n\r = 400 Bad Request, application/json, 16: {"error":"head"}
bytes GET /nothing HTTP/1.1\rHost: h\r\r = 400 Bad Request, application/json, 16: {"error":"head"}
bytes GET /nothing HTTP/1.1 Host: h = 400 Bad Request, application/json, 16: {"error":"head"}
bytes GET /nothing\r\n\r\n = 400 Bad Request, application/json, 16: {"error":"head"}
bytes GET /nothing HTTP/2.0\r\nHost: h\r\n\r\n = 400 Bad Request, application/json, 16: {"error":"head"}
bytes GET /nothing HTTP/1.2\r\nHost: h\r\n\r\n = 400 Bad Request, application/json, 16: {"error":"head"}
bytes GET /nothing HTTP/0.9\r\nHost: h\r\n\r\n = 400 Bad Request, application/json, 16: {"error":"head"}
bytes GET /nothing HTTP/1.10\r\nHost: h\r\n\r\n = 400 Bad Request, application/json, 16: {"error":"head"}
bytes GET /nothing http/1.1\r\nHost: h\r\n\r\n = 400 Bad Request, application/json, 16: {"error":"head"}
bytes GET /nothing HTTPS/1.1\r\nHost: h\r\n\r\n = 400 Bad Request, application/json, 16: {"error":"head"}
bytes PRI * HTTP/2.0\r\n\r\nSM\r\n\r\n = 400 Bad Request, application/json, 16: {"error":"head"}
bytes HTTP/1.1 200 OK\r\nContent-Length: 0\r\n\r\n = 400 Bad Request, application/json, 16: {"error":"head"}
bytes  GET /nothing HTTP/1.1\r\nHost: h\r\n\r\n = 400 Bad Request, application/json, 16: {"error":"head"}
bytes GET  /nothing HTTP/1.1\r\nHost: h\r\n\r\n = 400 Bad Request, application/json, 16: {"error":"head"}
bytes GET\t/nothing HTTP/1.1\r\nHost: h\r\n\r\n = 400 Bad Request, application/json, 16: {"error":"head"}
bytes GET /nothing  HTTP/1.1\r\nHost: h\r\n\r\n = 400 Bad Request, application/json, 16: {"error":"head"}
bytes GET /nothing HTTP/1.1 \r\nHost: h\r\n\r\n = 400 Bad Request, application/json, 16: {"error":"head"}
bytes GET /no thing HTTP/1.1\r\nHost: h\r\n\r\n = 400 Bad Request, application/json, 16: {"error":"head"}
bytes G@T /nothing HTTP/1.1\r\nHost: h\r\n\r\n = 400 Bad Request, application/json, 16: {"error":"head"}
bytes GÉT /nothing HTTP/1.1\r\nHost: h\r\n\r\n = 400 Bad Request, application/json, 16: {"error":"head"}
bytes G\x00T /nothing HTTP/1.1\r\nHost: h\r\n\r\n = 400 Bad Request, application/json, 16: {"error":"head"}
bytes GET /no\x00thing HTTP/1.1\r\nHost: h\r\n\r\n = 400 Bad Request, application/json, 16: {"error":"head"}
bytes GET /no\x7fthing HTTP/1.1\r\nHost: h\r\n\r\n = 400 Bad Request, application/json, 16: {"error":"head"}
bytes GET /no\xffthing HTTP/1.1\r\nHost: h\r\n\r\n = 400 Bad Request, application/json, 16: {"error":"head"}
bytes GET /nothing HTTP/1.1\r\nHost: h\r\nA: \x00\r\n\r\n = 400 Bad Request, application/json, 16: {"error":"head"}
bytes GET /nothing HTTP/1.1\r\nHost: h\x7f\r\n\r\n = 400 Bad Request, application/json, 16: {"error":"head"}
bytes GET /nothing HTTP/1.1\r\nHost: h\rA: b\r\n\r\n = 400 Bad Request, application/json, 16: {"error":"head"}
bytes GET /nothing HTTP/1.1\r\nA\x00: b\r\nHost: h\r\n\r\n = 400 Bad Request, application/json, 16: {"error":"head"}
bytes GET /nothing HTTP/1.1\r\né: b\r\nHost: h\r\n\r\n = 400 Bad Request, application/json, 16: {"error":"head"}
bytes GET /nothing HTTP/1.1\r\n\xff: b\r\nHost: h\r\n\r\n = 400 Bad Request, application/json, 16: {"error":"head"}
bytes GET /nothing HTTP/1.1\r\nHost : h\r\n\r\n = 400 Bad Request, application/json, 16: {"error":"head"}
bytes GET /nothing HTTP/1.1\r\nHost\t: h\r\n\r\n = 400 Bad Request, application/json, 16: {"error":"head"}
bytes GET /nothing HTTP/1.1\r\n Host: h\r\n\r\n = 400 Bad Request, application/json, 16: {"error":"head"}
bytes GET /nothing HTTP/1.1\r\nHost: h\r\nA: b\r\n c\r\n\r\n = 400 Bad Request, application/json, 16: {"error":"head"}
bytes GET /nothing HTTP/1.1\r\nHost: h\r\nA: b\r\n\tc\r\n\r\n = 400 Bad Request, application/json, 16: {"error":"head"}
bytes GET /nothing HTTP/1.1\r\nHost: h\r\nno colon\r\n\r\n = 400 Bad Request, application/json, 16: {"error":"head"}
bytes GET /nothing HTTP/1.1\r\nHost: h\r\n: b\r\n\r\n = 400 Bad Request, application/json, 16: {"error":"head"}
bytes GET /nothing HTTP/1.1\r\nHost: h\r\n"A": b\r\n\r\n = 400 Bad Request, application/json, 16: {"error":"head"}
bytes HEAD /nothing HTTP/1.1\r\nHost : h\r\n\r\n = 400 Bad Request, application/json, 16: {"error":"head"}, in all 115

# A head may begin with empty lines and end its lines by line feeds alone, in pieces of some bytes for each <n> of 1 7 4096
## clients in pieces of <n>
bytes \r\nGET /nothing HTTP/1.1\r\nHost: h\r\n\r\n = 404 Not Found, application/json, 16: {"error":"path"}
bytes \n\r\n\n\n + \r\n x 100 + GET /nothing HTTP/1.1\r\nHost: h\r\n\r\n = 404 Not Found, application/json, 16: {"error":"path"}
bytes GET /nothing HTTP/1.1\nHost: h\n\n = 404 Not Found, application/json, 16: {"error":"path"}
bytes GET /nothing HTTP/1.1\r\nHost: h\n\r\n = 404 Not Found, application/json, 16: {"error":"path"}
bytes POST /acts HTTP/1.1\nHost: h\nContent-Length: 20\n\n[{"act":"run-step"}] = 409 Conflict, application/json, 16: [{"refused":18}]
bytes POST /acts HTTP/1.1\nHost: h\nContent-Length: 4\n\n\r\n[] = 200 OK, application/json, 2: []
"#;

/// What asks for something else than its client may have thought.
pub(crate) const ELSEWHERE: &str = r#"
# Paths that are none, in pieces of some bytes for each <n> of 7 4096
## clients in pieces of <n>
GET / = 404 Not Found, application/json, 16: {"error":"path"}
GET /nothing = 404 Not Found, application/json, 16: {"error":"path"}, in all 113
POST /nothing 2 [] = 404 Not Found, application/json, 16: {"error":"path"}
GET * = 404 Not Found, application/json, 16: {"error":"path"}
OPTIONS * = 404 Not Found, application/json, 16: {"error":"path"}
CONNECT h:80 = 404 Not Found, application/json, 16: {"error":"path"}
GET http://h/records/1 = 404 Not Found, application/json, 16: {"error":"path"}
POST http://h/acts 20 [{"act":"run-step"}] = 404 Not Found, application/json, 16: {"error":"path"}
POST acts 20 [{"act":"run-step"}] = 404 Not Found, application/json, 16: {"error":"path"}
POST /acts/ 20 [{"act":"run-step"}] = 404 Not Found, application/json, 16: {"error":"path"}
POST //acts 20 [{"act":"run-step"}] = 404 Not Found, application/json, 16: {"error":"path"}
POST /./acts 20 [{"act":"run-step"}] = 404 Not Found, application/json, 16: {"error":"path"}
POST /records/../acts 20 [{"act":"run-step"}] = 404 Not Found, application/json, 16: {"error":"path"}
POST /acts? 20 [{"act":"run-step"}] = 404 Not Found, application/json, 16: {"error":"path"}
POST /acts?a=b 20 [{"act":"run-step"}] = 404 Not Found, application/json, 16: {"error":"path"}
POST /acts#a 20 [{"act":"run-step"}] = 404 Not Found, application/json, 16: {"error":"path"}
POST /acts; 20 [{"act":"run-step"}] = 404 Not Found, application/json, 16: {"error":"path"}
POST /acts\ 20 [{"act":"run-step"}] = 404 Not Found, application/json, 16: {"error":"path"}
POST \acts 20 [{"act":"run-step"}] = 404 Not Found, application/json, 16: {"error":"path"}
POST /Acts 20 [{"act":"run-step"}] = 404 Not Found, application/json, 16: {"error":"path"}
POST /%61cts 20 [{"act":"run-step"}] = 404 Not Found, application/json, 16: {"error":"path"}
POST /acts%2F 20 [{"act":"run-step"}] = 404 Not Found, application/json, 16: {"error":"path"}
POST /acté 20 [{"act":"run-step"}] = 404 Not Found, application/json, 16: {"error":"path"}
POST /run = 404 Not Found, application/json, 16: {"error":"path"}
POST /run/resume/ = 404 Not Found, application/json, 16: {"error":"path"}
POST /run//resume = 404 Not Found, application/json, 16: {"error":"path"}
GET /records = 404 Not Found, application/json, 16: {"error":"path"}
GET /records/ = 404 Not Found, application/json, 16: {"error":"path"}
GET /records/1/ = 404 Not Found, application/json, 16: {"error":"path"}
GET /records//content = 404 Not Found, application/json, 16: {"error":"path"}
GET /records/1//content = 404 Not Found, application/json, 16: {"error":"path"}
GET /records/1/content/ = 404 Not Found, application/json, 16: {"error":"path"}
GET /records/1/contents = 404 Not Found, application/json, 16: {"error":"path"}
GET /records/1?content = 404 Not Found, application/json, 16: {"error":"path"}
GET /records/1/content?a=b = 404 Not Found, application/json, 16: {"error":"path"}
GET /due = 404 Not Found, application/json, 16: {"error":"path"}
GET /due/ = 404 Not Found, application/json, 16: {"error":"path"}
GET /due/2025/01/02 = 404 Not Found, application/json, 16: {"error":"path"}
GET /certificates/ = 404 Not Found, application/json, 16: {"error":"path"}
GET /certificates/1/content = 404 Not Found, application/json, 16: {"error":"path"}

# Numbers that name nothing, in pieces of some bytes for each <n> of 7 4096
## clients in pieces of <n>
GET /records/01 = 404 Not Found, application/json, 18: {"error":"record"}
GET /records/0 = 404 Not Found, application/json, 18: {"error":"record"}
GET /records/1 = 404 Not Found, application/json, 18: {"error":"record"}
GET /records/4294967295 = 404 Not Found, application/json, 18: {"error":"record"}
GET /records/4294967296 = 404 Not Found, application/json, 18: {"error":"record"}
GET /records/4294967297 = 404 Not Found, application/json, 18: {"error":"record"}
GET /records/18446744073709551617 = 404 Not Found, application/json, 18: {"error":"record"}
GET /records/-1 = 404 Not Found, application/json, 18: {"error":"record"}
GET /records/+1 = 404 Not Found, application/json, 18: {"error":"record"}
GET /records/1.0 = 404 Not Found, application/json, 18: {"error":"record"}
GET /records/0x1 = 404 Not Found, application/json, 18: {"error":"record"}
GET /records/%31 = 404 Not Found, application/json, 18: {"error":"record"}
GET /records/1%20 = 404 Not Found, application/json, 18: {"error":"record"}
GET /records/1#a = 404 Not Found, application/json, 18: {"error":"record"}
GET /records/１ = 404 Not Found, application/json, 18: {"error":"record"}
GET /records/{n} = 404 Not Found, application/json, 18: {"error":"record"}
GET /records/content = 404 Not Found, application/json, 18: {"error":"record"}
GET /records/.. = 404 Not Found, application/json, 18: {"error":"record"}
GET /records/1/content = 404 Not Found, application/json, 19: {"error":"content"}
GET /records/01/content = 404 Not Found, application/json, 19: {"error":"content"}
GET /records/é/content = 404 Not Found, application/json, 19: {"error":"content"}
GET /records/content/content = 404 Not Found, application/json, 19: {"error":"content"}
GET /certificates/1 = 404 Not Found, application/json, 23: {"error":"certificate"}
GET /certificates/01 = 404 Not Found, application/json, 23: {"error":"certificate"}
GET /certificates/4294967297 = 404 Not Found, application/json, 23: {"error":"certificate"}
bytes GET /records/ + 1 x 8000 +  HTTP/1.1\r\nHost: h\r\n\r\n = 404 Not Found, application/json, 18: {"error":"record"}
bytes GET /records/ + 0 x 8000 + 1/content HTTP/1.1\r\nHost: h\r\n\r\n = 404 Not Found, application/json, 19: {"error":"content"}

# Days that are none, in pieces of some bytes for each <n> of 7 4096
## clients in pieces of <n>
GET /due/2025-01-02 = 200 OK, application/json, 2: []
GET /due/0001-01-01 = 200 OK, application/json, 2: []
GET /due/2999-12-31 = 200 OK, application/json, 2: []
GET /due/3000-01-01 = 400 Bad Request, application/json, 15: {"error":"day"}
GET /due/0000-12-31 = 400 Bad Request, application/json, 15: {"error":"day"}
GET /due/2025-02-29 = 400 Bad Request, application/json, 15: {"error":"day"}
GET /due/2024-02-29 = 200 OK, application/json, 2: []
GET /due/1900-02-29 = 400 Bad Request, application/json, 15: {"error":"day"}
GET /due/2025-13-01 = 400 Bad Request, application/json, 15: {"error":"day"}
GET /due/2025-00-01 = 400 Bad Request, application/json, 15: {"error":"day"}
GET /due/2025-01-00 = 400 Bad Request, application/json, 15: {"error":"day"}
GET /due/2025-04-31 = 400 Bad Request, application/json, 15: {"error":"day"}
GET /due/20250102 = 400 Bad Request, application/json, 15: {"error":"day"}
GET /due/2025-1-2 = 400 Bad Request, application/json, 15: {"error":"day"}
GET /due/25-01-02 = 400 Bad Request, application/json, 15: {"error":"day"}
GET /due/+2025-01-02 = 400 Bad Request, application/json, 15: {"error":"day"}
GET /due/-2025-01-02 = 400 Bad Request, application/json, 15: {"error":"day"}
GET /due/02025-01-02 = 400 Bad Request, application/json, 15: {"error":"day"}
GET /due/2025-01-02T00:00 = 400 Bad Request, application/json, 15: {"error":"day"}
GET /due/2025%2D01-02 = 400 Bad Request, application/json, 15: {"error":"day"}
GET /due/2025-01-０2 = 400 Bad Request, application/json, 15: {"error":"day"}
GET /due/today = 400 Bad Request, application/json, 15: {"error":"day"}

# Each path has one method, and HEAD is none, in pieces of some bytes for each <n> of 1 7 4096
## clients in pieces of <n>
HEAD /nothing = 404 Not Found, application/json, 16:, in all 97
HEAD /acts = bytes HTTP/1.1 405 Method Not Allowed\r\nContent-Type: application/json\r\nContent-Length: 18\r\nAllow: POST\r\nConnection: close\r\n\r\n, in all 119
HEAD /run/resume = bytes HTTP/1.1 405 Method Not Allowed\r\nContent-Type: application/json\r\nContent-Length: 18\r\nAllow: POST\r\nConnection: close\r\n\r\n, in all 119
HEAD /records/1 = bytes HTTP/1.1 405 Method Not Allowed\r\nContent-Type: application/json\r\nContent-Length: 18\r\nAllow: GET\r\nConnection: close\r\n\r\n, in all 118
HEAD /due/never = bytes HTTP/1.1 405 Method Not Allowed\r\nContent-Type: application/json\r\nContent-Length: 18\r\nAllow: GET\r\nConnection: close\r\n\r\n, in all 118
bytes HEAD /acts HTTP/1.1\r\nHost: h\r\nContent-Length: 20\r\n\r\n[{"act":"run-step"}] = bytes HTTP/1.1 405 Method Not Allowed\r\nContent-Type: application/json\r\nContent-Length: 18\r\nAllow: POST\r\nConnection: close\r\n\r\n, in all 119
bytes HEAD /nothing HTTP/1.1\r\n\r\n = 400 Bad Request, application/json, 16:, in all 99
GET /acts = bytes HTTP/1.1 405 Method Not Allowed\r\nContent-Type: application/json\r\nContent-Length: 18\r\nAllow: POST\r\nConnection: close\r\n\r\n{"error":"method"}, in all 137
GET /run/resume = bytes HTTP/1.1 405 Method Not Allowed\r\nContent-Type: application/json\r\nContent-Length: 18\r\nAllow: POST\r\nConnection: close\r\n\r\n{"error":"method"}, in all 137
DELETE /records/1 = bytes HTTP/1.1 405 Method Not Allowed\r\nContent-Type: application/json\r\nContent-Length: 18\r\nAllow: GET\r\nConnection: close\r\n\r\n{"error":"method"}, in all 136
POST /records/01 2 [] = bytes HTTP/1.1 405 Method Not Allowed\r\nContent-Type: application/json\r\nContent-Length: 18\r\nAllow: GET\r\nConnection: close\r\n\r\n{"error":"method"}, in all 136
PUT /records/1/content = bytes HTTP/1.1 405 Method Not Allowed\r\nContent-Type: application/json\r\nContent-Length: 18\r\nAllow: GET\r\nConnection: close\r\n\r\n{"error":"method"}, in all 136
POST /due/never = bytes HTTP/1.1 405 Method Not Allowed\r\nContent-Type: application/json\r\nContent-Length: 18\r\nAllow: GET\r\nConnection: close\r\n\r\n{"error":"method"}, in all 136
PATCH /certificates/1 = bytes HTTP/1.1 405 Method Not Allowed\r\nContent-Type: application/json\r\nContent-Length: 18\r\nAllow: GET\r\nConnection: close\r\n\r\n{"error":"method"}, in all 136
OPTIONS /acts = bytes HTTP/1.1 405 Method Not Allowed\r\nContent-Type: application/json\r\nContent-Length: 18\r\nAllow: POST\r\nConnection: close\r\n\r\n{"error":"method"}, in all 137
TRACE /acts = bytes HTTP/1.1 405 Method Not Allowed\r\nContent-Type: application/json\r\nContent-Length: 18\r\nAllow: POST\r\nConnection: close\r\n\r\n{"error":"method"}, in all 137
bytes post /acts HTTP/1.1\r\nHost: h\r\nContent-Length: 20\r\n\r\n[{"act":"run-step"}] = bytes HTTP/1.1 405 Method Not Allowed\r\nContent-Type: application/json\r\nContent-Length: 18\r\nAllow: POST\r\nConnection: close\r\n\r\n{"error":"method"}, in all 137
bytes POSTS /acts HTTP/1.1\r\nHost: h\r\nTransfer-Encoding: chunked\r\n\r\n = bytes HTTP/1.1 405 Method Not Allowed\r\nContent-Type: application/json\r\nContent-Length: 18\r\nAllow: POST\r\nConnection: close\r\n\r\n{"error":"method"}, in all 137
get /records/1 = bytes HTTP/1.1 405 Method Not Allowed\r\nContent-Type: application/json\r\nContent-Length: 18\r\nAllow: GET\r\nConnection: close\r\n\r\n{"error":"method"}, in all 136
head /records/1 = bytes HTTP/1.1 405 Method Not Allowed\r\nContent-Type: application/json\r\nContent-Length: 18\r\nAllow: GET\r\nConnection: close\r\n\r\n{"error":"method"}, in all 136
head /nothing = 404 Not Found, application/json, 16: {"error":"path"}, in all 113
!#$%&'*+-.^_`|~ /nothing = 404 Not Found, application/json, 16: {"error":"path"}, in all 113

# Lines that do not matter, and bytes after the request, in pieces of some bytes for each <n> of 1 7 4096
## clients in pieces of <n>
POST /acts 20 [{"act":"run-step"}] and more = 409 Conflict, application/json, 16: [{"refused":18}]
bytes POST /acts HTTP/1.1\r\nHost: h\r\nContent-Length: 2\r\n\r\n[]POST /acts HTTP/1.1\r\nHost: h\r\nContent-Length: 20\r\n\r\n[{"act":"run-step"}] = 200 OK, application/json, 2: []
bytes GET /nothing HTTP/1.1\r\nHost: h\r\n\r\nPOST /acts HTTP/1.1\r\nHost: h\r\nContent-Length: 2\r\n\r\n[] = 404 Not Found, application/json, 16: {"error":"path"}, in all 113
bytes GET /records/1 HTTP/1.1\r\nHost: h\r\nContent-Length: 56\r\n\r\n[{"act":"open-run","day":"2025-01-02","by":"registrar"}] = 404 Not Found, application/json, 18: {"error":"record"}
bytes GET /records/1 HTTP/1.1\r\nHost: h\r\nContent-Length: no\r\nContent-Length: +5\r\nTransfer-Encoding: chunked\r\n\r\n = 404 Not Found, application/json, 18: {"error":"record"}
bytes POST /acts HTTP/1.1\r\nHost: h\r\nExpect: 100-continue\r\nContent-Length: 20\r\n\r\n[{"act":"run-step"}] = 409 Conflict, application/json, 16: [{"refused":18}]
bytes POST /acts HTTP/1.1\r\nHost: h\r\nConnection: keep-alive\r\nKeep-Alive: timeout=5\r\nContent-Length: 20\r\n\r\n[{"act":"run-step"}] = 409 Conflict, application/json, 16: [{"refused":18}]
bytes GET /nothing HTTP/1.1\r\nHost: h\r\nConnection: Upgrade, HTTP2-Settings\r\nUpgrade: h2c\r\nHTTP2-Settings: AAMAAABkAAQAAP__\r\n\r\n = 404 Not Found, application/json, 16: {"error":"path"}
bytes GET /nothing HTTP/1.1\r\nHost: h\r\nAccept: text/html\r\nIf-None-Match: *\r\nRange: bytes=0-0\r\n\r\n = 404 Not Found, application/json, 16: {"error":"path"}
bytes GET /nothing HTTP/1.1\r\nHost: h\r\nX-HTTP-Method-Override: POST\r\nX-Forwarded-Host: a\r\nX-Original-URL: /acts\r\n\r\n = 404 Not Found, application/json, 16: {"error":"path"}
bytes POST /acts HTTP/1.1\r\nHost: h\r\nContent-Type: text/html\r\nContent-Length: 20\r\n\r\n[{"act":"run-step"}] = 409 Conflict, application/json, 16: [{"refused":18}]
bytes GET /nothing HTTP/1.1\r\nHost: h\r\nA:\r\nA:    \r\nA: \t\r\n!#$%&'*+-.^_`|~0aZ: b\r\n\r\n = 404 Not Found, application/json, 16: {"error":"path"}
bytes GET /nothing HTTP/1.1\r\nHost: h\r\nA: a\tb: é \xff\r\n\r\n = 404 Not Found, application/json, 16: {"error":"path"}
GET /run/resume/é = 404 Not Found, application/json, 16: {"error":"path"}

# The longest heads and bodies, in pieces of some bytes for each <n> of 1000 4096
## clients in pieces of <n>
bytes GET /nothing HTTP/1.1\r\nHost: h\r\nn: + v x 16346 + \r\n\r\n = 404 Not Found, application/json, 16: {"error":"path"}
bytes GET /nothing HTTP/1.1\r\nHost: h\r\nn: + v x 16347 + \r\n\r\n = 400 Bad Request, application/json, 16: {"error":"head"}
bytes GET /nothing HTTP/1.1\r\nHost: h\r\nn: + v x 100000 + \r\n\r\n = 400 Bad Request, application/json, 16: {"error":"head"}
bytes POST /acts HTTP/1.1\r\nHost: h\r\nContent-Length: 20\r\nn: + v x 16328 + \r\n\r\n[{"act":"run-step"}] = 409 Conflict, application/json, 16: [{"refused":18}]
bytes POST /acts HTTP/1.1\r\nHost: h\r\nContent-Length: 20\r\nn: + v x 16329 + \r\n\r\n[{"act":"run-step"}] = 400 Bad Request, application/json, 16: {"error":"head"}
bytes GET / + a x 8000 +  HTTP/1.1\r\nHost: h\r\n\r\n = 404 Not Found, application/json, 16: {"error":"path"}
bytes GET / + a x 16357 +  HTTP/1.1\r\nHost: h\r\n\r\n = 404 Not Found, application/json, 16: {"error":"path"}
bytes GET / + a x 16358 +  HTTP/1.1\r\nHost: h\r\n\r\n = 400 Bad Request, application/json, 16: {"error":"head"}
bytes GET  + /a x 8000 +  HTTP/1.1\r\nHost: h\r\n\r\n = 404 Not Found, application/json, 16: {"error":"path"}
bytes GET /records/1 + /content x 1000 +  HTTP/1.1\r\nHost: h\r\n\r\n = 404 Not Found, application/json, 16: {"error":"path"}
bytes G x 8000 +  /nothing HTTP/1.1\r\nHost: h\r\n\r\n = 404 Not Found, application/json, 16: {"error":"path"}
bytes G x 20000 = 400 Bad Request, application/json, 16: {"error":"head"}
bytes GET /nothing HTTP/1.1\r\nHost: h\r\n + n x 8000 + : v\r\n\r\n = 404 Not Found, application/json, 16: {"error":"path"}
bytes GET /nothing HTTP/1.1\r\nHost: h\r\n + n x 20000 = 400 Bad Request, application/json, 16: {"error":"head"}
bytes GET /nothing HTTP/1.1\r\nHost: h\r\nn: + \t x 8000 + \r\n\r\n = 404 Not Found, application/json, 16: {"error":"path"}
bytes \r\n x 8175 + GET /nothing HTTP/1.1\r\nHost: h\r\n\r\n = 404 Not Found, application/json, 16: {"error":"path"}
bytes \n + \r\n x 8175 + GET /nothing HTTP/1.1\r\nHost: h\r\n\r\n = 400 Bad Request, application/json, 16: {"error":"head"}
bytes \r\n x 50000 = 400 Bad Request, application/json, 16: {"error":"head"}
bytes GET /nothing HTTP/1.1\r\nHost: h\r\n + a:b\r\n x 63 + \r\n = 404 Not Found, application/json, 16: {"error":"path"}
bytes GET /nothing HTTP/1.1\r\nHost: h\r\n + a:b\r\n x 64 + \r\n = 400 Bad Request, application/json, 16: {"error":"head"}
bytes GET /nothing HTTP/1.0\r\n + a:b\r\n x 65 + \r\n = 400 Bad Request, application/json, 16: {"error":"head"}
bytes POST /acts HTTP/1.1\r\nHost: h\r\nContent-Length: 1048576\r\n\r\n[ + \t x 1048574 + ] = 200 OK, application/json, 2: []
bytes POST /acts HTTP/1.1\r\nHost: h\r\nContent-Length: 1048576\r\n\r\n[ + \t x 1048574 = 400 Bad Request, application/json, 16: {"error":"body"}
bytes POST /acts HTTP/1.1\r\nHost: h\r\nContent-Length: 1048577\r\n\r\n[ + \t x 1048575 + ] = 413 Payload Too Large, application/json, 16: {"error":"size"}
bytes POST /acts HTTP/1.1\r\nHost: h\r\nContent-Length: 1048576\r\n\r\n + [ x 1048576 = 400 Bad Request, application/json, 16: {"error":"json"}
bytes POST /acts HTTP/1.1\r\nHost: h\r\nContent-Length: 191\r\n\r\n[ + {"act":"run-step"}, x 9 + {"act":"run-step"}] = 409 Conflict, application/json, 151: [ + {"refused":18}, x 9 + {"refused":18}]
POST /acts 20 [{"act":"run-step"}] = 409 Conflict, application/json, 16: [{"refused":18}]
## counts of the tables
[0, 0, 0, 0, 0, 0, 0, 0, 0, 0, 0]
"#;
